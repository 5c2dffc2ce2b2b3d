//! Gates of a genlib text.

ghost use Rattle.std.specs.Prelude.{◌≡◌, ◌≤◌, ◌==◌, length, IfOk};
ghost use Rattle.si_cell.specs.Limits.{max_pins};
ghost use Rattle.si_genlib.specs.Expression as expression;
ghost use Rattle.si_genlib.specs.Gate.{no_pins, pins_from};
ghost use Rattle.si_tokens.specs.Loops.Parts.{left, Reads};
ghost use Rattle.si_genlib.specs.Loops.Held.{pins_now, gate_now, ToldAt};
ghost use Rattle.si_genlib.specs.Statements as text;
ghost use Rattle.si_genlib.specs.Loops.Tables.{tables, with_table};
ghost use Rattle.si_tokens.specs.Unread.{tokens, word_here};

use crate::expression::Reading;
use crate::pins::{PinList, is_name, symbol_of};
use si_base::fault::{LineFault, TextKind};
use si_tokens::decimal::is_decimal;
use si_tokens::fault::{ReadFault, Stop};
use si_tokens::source::Source;
use std::alloc::Global;

/// An expression: its pins, and its truth table.
#[derive(Drop)]
pub(crate) struct Expression<'a> {
    pub(crate) pins: PinList<'a>,
    pub(crate) table: u32,
}

/// The fault of a token with its line.
fn at_line(line: u64, fault: LineFault) -> ReadFault
    ensures { ToldAt fault line result }
{
    match fault {
        LineFault::NoMemory => ReadFault::NoMemory,
        LineFault::Kind(kind) => ReadFault::Stop(Stop::Fault { line, kind }),
    }
}

/// The expression up to its `;`, of a gate with this own output.
pub(crate) fn read_expression<'a>(
    alloc: Global,
    source: &mut Source<'a>,
    out: &[u8],
) -> Result<Expression<'a>, ReadFault>
    ensures table { Reads (λ e. (e.table, left source.new)) result
        (expression.read
        (tables (pins_from out.now no_pins (tokens (left source.old))).names)
        expression.start (tokens (left source.old))) }
    ensures pins { IfOk result
        (λ e. pins_now e.pins ≡ pins_from out.now no_pins (tokens (left source.old))) }
    ensures few { IfOk result (λ e. length (pins_now e.pins).names ≤ max_pins) }
{
    let mut reading = Reading::new(alloc);
    let mut pins = PinList::new(alloc);
    while let Some(token) = source.next_token() {
        let symbol = symbol_of(&mut pins, out, token.bytes)?;
        match reading.step(symbol) {
            Ok(None) => {}
            Ok(Some(table)) => return Ok(Expression { pins, table }),
            Err(fault) => return Err(at_line(token.line, fault)),
        }
    }
    Err(ReadFault::Stop(Stop::Cut))
}

/// A gate, with the truth table of its expression.
#[derive(Drop)]
pub(crate) struct Gate<'a> {
    /// The line where its statement begins.
    pub(crate) line: u64,
    pub(crate) name: &'a [u8],
    /// The name of its own output.
    pub(crate) out: &'a [u8],
    pub(crate) pins: PinList<'a>,
    pub(crate) table: u32,
}

fn quoted_len(bytes: &[u8]) -> usize
    ensures within { result ≤ length bytes.now }
    ensures len { result ≡ text.quoted_len bytes.now }
{
    bytes.iter().take_while(|b| **b != b'"').count()
}

/// A name behind a double quote, up to the next one on its line.
fn quoted<'a>(source: &mut Source<'a>) -> Result<&'a [u8], ReadFault>
    ensures { Reads (λ name. (name.now, left source.new)) result (text.quoted (left source.old)) }
{
    let here = source.here;
    let len = quoted_len(here);
    if len == 0 || len >= here.len() {
        return Err(ReadFault::Stop(Stop::Fault {
            line: source.number,
            kind: TextKind::BadGate,
        }));
    }
    let (name, _) = here.split_at(len);
    let (_, rest) = here.split_at(len + 1);
    source.here = rest;
    Ok(name)
}

fn name_of_word<'a>(source: &mut Source<'a>) -> Result<&'a [u8], ReadFault>
    ensures { Reads (λ name. (name.now, left source.new)) result
        (text.name_of_word (word_here (left source.old))) }
{
    match source.word_here() {
        Some(word) => Ok(word.bytes),
        None => Err(ReadFault::Stop(Stop::Cut)),
    }
}

fn name_here<'a>(source: &mut Source<'a>) -> Result<&'a [u8], ReadFault>
    ensures { Reads (λ name. (name.now, left source.new)) result
        (text.name_here (left source.old)) }
{
    match source.here {
        [] => name_of_word(source),
        [first, rest @ ..] => {
            if *first != b'"' {
                return name_of_word(source);
            }
            source.here = rest;
            quoted(source)
        }
    }
}

/// The name of a gate: a word, or what stands between two double quotes on one line.
#[tactic(auto, unfolding(crate::specs::Statements::name_at))]
fn read_name<'a>(source: &mut Source<'a>) -> Result<&'a [u8], ReadFault>
    ensures { Reads (λ name. (name.now, left source.new)) result (text.name_at (left source.old)) }
{
    source.skip_blanks();
    name_here(source)
}

/// A decimal word.
#[tactic(auto, unfolding(crate::specs::Statements::decimal_at))]
pub(crate) fn read_decimal(source: &mut Source<'_>) -> Result<(), ReadFault>
    ensures { Reads (λ _. left source.new) result (text.decimal_at (left source.old)) }
{
    let word = source.word()?;
    if !is_decimal(word.bytes) {
        return Err(ReadFault::Stop(Stop::Fault {
            line: word.line,
            kind: TextKind::BadNumber,
        }));
    }
    Ok(())
}

/// The name of the own output.
#[tactic(auto, unfolding(crate::specs::Statements::out_at))]
fn read_out<'a>(source: &mut Source<'a>) -> Result<&'a [u8], ReadFault>
    ensures { Reads (λ name. (name.now, left source.new)) result (text.out_at (left source.old)) }
{
    let token = source.token()?;
    if !is_name(token.bytes) {
        return Err(ReadFault::Stop(Stop::Fault {
            line: token.line,
            kind: TextKind::BadGate,
        }));
    }
    Ok(token.bytes)
}

#[tactic(auto, unfolding(crate::specs::Statements::equals_at))]
fn read_equals(source: &mut Source<'_>) -> Result<(), ReadFault>
    ensures { Reads (λ _. left source.new) result (text.equals_at (left source.old)) }
{
    let token = source.token()?;
    if b"=".as_slice() != token.bytes {
        return Err(ReadFault::Stop(Stop::Fault {
            line: token.line,
            kind: TextKind::BadGate,
        }));
    }
    Ok(())
}

/// The gate of this name and own output, from its expression on.
fn read_body<'a>(
    alloc: Global,
    source: &mut Source<'a>,
    line: u64,
    name: &'a [u8],
    out: &'a [u8],
) -> Result<Gate<'a>, ReadFault>
    ensures gate { Reads (λ g. (gate_now g, left source.new)) result
        (with_table (text.body_at line name.now out.now (left source.old))) }
    ensures few { IfOk result (λ g. length (gate_now g).pins.names ≤ max_pins) }
{
    let expression = read_expression(alloc, source, out)?;
    Ok(Gate {
        line,
        name,
        out,
        pins: expression.pins,
        table: expression.table,
    })
}

/// A gate whose statement begins at this line, behind its first word.
#[tactic(auto, unfolding(crate::specs::Statements::gate_at))]
pub(crate) fn read_gate<'a>(
    alloc: Global,
    source: &mut Source<'a>,
    line: u64,
) -> Result<Gate<'a>, ReadFault>
    ensures gate { Reads (λ g. (gate_now g, left source.new)) result
        (with_table (text.gate_at line (left source.old))) }
    ensures few { IfOk result (λ g. length (gate_now g).pins.names ≤ max_pins) }
{
    let name = read_name(source)?;
    read_decimal(source)?;
    let out = read_out(source)?;
    read_equals(source)?;
    read_body(alloc, source, line, name, out)
}
