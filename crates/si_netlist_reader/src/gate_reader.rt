//! Gates, read from the words of gate lines. Each literal is looked up once.

ghost use Rattle.std.specs.Prelude.{◌≡◌, ◌≤◌, length, codes, IfOk};
ghost use Rattle.std.specs.Prelude.{MatchResult, None, Some};
ghost use Rattle.si_base.specs.Limits.{max_signals};
ghost use Rattle.si_base.specs.Netlist as base;
ghost use Rattle.si_netlist.specs.Loops.Parts.{gate_seen};
ghost use Rattle.si_netlist_reader.specs.GateParts as gates;
ghost use Rattle.si_netlist_reader.specs.Loops.Headers.{gate_in};
ghost use Rattle.si_tokens.specs.LineParts.{made, each};
ghost use Rattle.si_tokens.specs.SumParts.{literal_part};
ghost use Rattle.si_words.specs.Loops.Reads.{words_now};
ghost use Rattle.si_words.specs.Sums as sums;

use si_base::fault::TextKind;
use si_base::ids::{Code, Literal, NoMemory};
use si_base::names::Names;
use si_base::text::Name;
use si_cube::cube::Cube;
use si_cube::sum::Sum;
use si_netlist::gate::Gate;
use si_tokens::literals::read_literal;
use si_words::gate_lines::{cut_at, is_one, parts_of};
use si_words::words::is_signal_name;
use std::alloc::Global;

/// The cube of words: `1`, or literals whose signals rise.
fn read_cube(signals: &Names, words: &[&[u8]]) -> Option<Result<Cube, TextKind>>
    requires { length signals.now ≤ max_signals }
    ensures { result ≡ gates.cube_part signals.now (words_now words.now) }
{
    let mut care = Code(0);
    let mut value = Code(0);
    if words.is_empty() {
        return None;
    }
    if is_one(b"1", words) {
        return Some(Ok(Cube { care, value }));
    }
    // The first signal that a further literal may have.
    let mut next = 0;
    let mut fault = None;
    for word in words {
        match read_literal(signals, *word)? {
            Err(kind) => fault = fault.or(Some(kind)),
            Ok(literal) => {
                if literal.sig.0 < next {
                    fault = fault.or(Some(TextKind::BadLine));
                    continue;
                }
                care = care.set(literal.sig, true);
                value = value.set(literal.sig, literal.plain);
                next = literal.sig.0 + 1;
            }
        }
    }
    match fault {
        Some(kind) => Some(Err(kind)),
        None => Some(Ok(Cube { care, value })),
    }
}

/// The sum of words: `0`, or cubes with `+` between them.
fn read_sum(
    alloc: Global,
    signals: &Names,
    words: &[&[u8]],
) -> Result<Option<Result<Sum, TextKind>>, NoMemory>
    requires { length signals.now ≤ max_signals }
    ensures { IfOk result (λ read. read ≡ gates.sum_part signals.now (words_now words.now)) }
{
    if is_one(b"0", words) {
        return Ok(Some(Ok(Sum::new(Vec::new(alloc)))));
    }
    let parts = parts_of(alloc, words)?;
    let mut cubes = Vec::new(alloc);
    let mut fault = None;
    for part in &parts {
        let Some(cube) = read_cube(signals, *part) else {
            return Ok(None);
        };
        match cube {
            Err(kind) => fault = fault.or(Some(kind)),
            Ok(cube) => cubes.push(cube)?,
        }
    }
    match fault {
        Some(kind) => Ok(Some(Err(kind))),
        None => Ok(Some(Ok(Sum::new(cubes)))),
    }
}

/// The gate of a sum.
fn read_sum_gate(
    alloc: Global,
    signals: &Names,
    words: &[&[u8]],
) -> Result<Option<Result<Gate, TextKind>>, NoMemory>
    requires { length signals.now ≤ max_signals }
    ensures { IfOk result (λ read. made gate_seen read
        ≡ made base.SumGate (gates.sum_part signals.now (words_now words.now))) }
{
    match read_sum(alloc, signals, words)? {
        None => Ok(None),
        Some(Err(kind)) => Ok(Some(Err(kind))),
        Some(Ok(sum)) => Ok(Some(Ok(Gate::Sum(sum)))),
    }
}

/// The generalised C-element of the words before and after `|`.
fn read_gc(
    alloc: Global,
    signals: &Names,
    words: &[&[u8]],
) -> Result<Option<Result<Gate, TextKind>>, NoMemory>
    requires { length signals.now ≤ max_signals }
    ensures { IfOk result (λ read. made gate_seen read
        ≡ gates.gc_part signals.now (sums.cut_at (codes "|") (words_now words.now))) }
{
    let Some((set, reset)) = cut_at(b"|", words) else {
        return Ok(None);
    };
    let Some(set) = read_sum(alloc, signals, set)? else {
        return Ok(None);
    };
    let Some(reset) = read_sum(alloc, signals, reset)? else {
        return Ok(None);
    };
    match (set, reset) {
        (Err(kind), _) => Ok(Some(Err(kind))),
        (Ok(_), Err(kind)) => Ok(Some(Err(kind))),
        (Ok(set), Ok(reset)) => Ok(Some(Ok(Gate::Gc { set, reset }))),
    }
}

/// The literals of words, in their order.
fn read_literals(
    alloc: Global,
    signals: &Names,
    words: &[&[u8]],
) -> Result<Option<Result<Vec<Literal>, TextKind>>, NoMemory>
    requires { length signals.now ≤ max_signals }
    ensures { IfOk result (λ read. made (λ literals. literals.items) read
        ≡ each (literal_part signals.now) (words_now words.now)) }
{
    let mut literals = Vec::new(alloc);
    let mut fault = None;
    for word in words {
        let Some(literal) = read_literal(signals, *word) else {
            return Ok(None);
        };
        match literal {
            Err(kind) => fault = fault.or(Some(kind)),
            Ok(literal) => literals.push(literal)?,
        }
    }
    match fault {
        Some(kind) => Ok(Some(Err(kind))),
        None => Ok(Some(Ok(literals))),
    }
}

/// The cell of the words before and after `:`.
fn read_cell(
    alloc: Global,
    signals: &Names,
    words: &[&[u8]],
) -> Result<Option<Result<Gate, TextKind>>, NoMemory>
    requires { length signals.now ≤ max_signals }
    ensures { IfOk result (λ read. made gate_seen read
        ≡ gates.cell_part signals.now (sums.cut_at (codes ":") (words_now words.now))) }
{
    let Some((pins, sum)) = cut_at(b":", words) else {
        return Ok(None);
    };
    let [cell, literals @ ..] = pins else {
        return Ok(None);
    };
    if !is_signal_name(*cell) || literals.len() > 4 {
        return Ok(None);
    }
    let Some(literals) = read_literals(alloc, signals, literals)? else {
        return Ok(None);
    };
    let Some(sum) = read_sum(alloc, signals, sum)? else {
        return Ok(None);
    };
    match (literals, sum) {
        (Err(kind), _) => Ok(Some(Err(kind))),
        (Ok(_), Err(kind)) => Ok(Some(Err(kind))),
        (Ok(literals), Ok(sum)) => Ok(Some(Ok(Gate::Cell {
            name: Name::copy_of(alloc, *cell)?,
            literals,
            sum,
        }))),
    }
}

/// The gate that the words after the signal's name spell.
fn read_gate(
    alloc: Global,
    signals: &Names,
    words: &[&[u8]],
) -> Result<Option<Result<Gate, TextKind>>, NoMemory>
    requires { length signals.now ≤ max_signals }
    ensures { IfOk result
        (λ read. made gate_seen read ≡ gates.gate_part signals.now (words_now words.now)) }
{
    let [kind, rest @ ..] = words else {
        return Ok(None);
    };
    if b"sum".as_slice() == *kind {
        read_sum_gate(alloc, signals, rest)
    } else if b"gc".as_slice() == *kind {
        read_gc(alloc, signals, rest)
    } else if b"cell".as_slice() == *kind {
        read_cell(alloc, signals, rest)
    } else {
        Ok(None)
    }
}

/// The gate of the signal of that name, from the words of its line, or the fault of the line.
pub fn read_gate_line(
    alloc: Global,
    signals: &Names,
    name: &[u8],
    words: &[&[u8]],
) -> Result<Result<Gate, TextKind>, NoMemory>
    requires { length signals.now ≤ max_signals }
    ensures { IfOk result (λ read. MatchResult read
        (λ gate. (gates.gate_fault signals.now name.now (words_now words.now) ≡ None)
        × (gate_seen gate ≡ gate_in signals.now (words_now words.now)))
        (λ kind. gates.gate_fault signals.now name.now (words_now words.now) ≡ Some kind)) }
{
    let [head, rest @ ..] = words else {
        return Ok(Err(TextKind::BadLine));
    };
    if name != *head {
        return Ok(Err(TextKind::BadLine));
    }
    match read_gate(alloc, signals, rest)? {
        Some(gate) => Ok(gate),
        None => Ok(Err(TextKind::BadLine)),
    }
}
