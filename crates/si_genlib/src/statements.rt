//! Statements of a genlib text.

ghost use Rattle.std.specs.Prelude.{◌≡◌};
ghost use Rattle.si_genlib.specs.GenlibText.{all_kept};
ghost use Rattle.si_tokens.specs.Loops.Parts.{left, piece, Reads};
ghost use Rattle.si_genlib.specs.Loops.Held.{progress_now};
ghost use Rattle.si_genlib.specs.Statements as text;

use crate::cell::keep;
use crate::gate::{read_decimal, read_gate};
use crate::gate_ports::keep_ports;
use crate::ports::Ports;
use si_base::fault::TextKind;
use si_cell::cell::Cell;
use si_tokens::fault::{ReadFault, Stop};
use si_tokens::source::{Part, Source};
use std::alloc::Global;

/// The cells so far, the names of their ports, and whether a gate stands before.
#[derive(Drop)]
pub(crate) struct Progress {
    pub(crate) cells: Vec<Cell>,
    pub(crate) ports: Vec<Ports>,
    pub(crate) begun: bool,
}

fn is_phase(word: &[u8]) -> bool
    ensures { result ≡ text.is_phase word.now }
{
    b"INV".as_slice() == word || b"NONINV".as_slice() == word || b"UNKNOWN".as_slice() == word
}

#[tactic(auto, unfolding(crate::specs::Statements::phase_at))]
fn read_phase(source: &mut Source<'_>) -> Result<(), ReadFault>
    ensures { Reads (λ _. left source.new) result (text.phase_at (left source.old)) }
{
    let word = source.word()?;
    if !is_phase(word.bytes) {
        return Err(ReadFault::Stop(Stop::Fault {
            line: word.line,
            kind: TextKind::BadPin,
        }));
    }
    Ok(())
}

fn read_decimals(source: &mut Source<'_>, count: u32) -> Result<(), ReadFault>
    ensures { Reads (λ _. left source.new) result (text.decimals_at count (left source.old)) }
{
    for _ in 0..count {
        read_decimal(source)?;
    }
    Ok(())
}

/// A statement on a pin, behind its first word.
#[tactic(auto, unfolding(crate::specs::Statements::pin_at))]
fn read_pin(source: &mut Source<'_>) -> Result<(), ReadFault>
    ensures { Reads (λ _. left source.new) result (text.pin_at (left source.old)) }
{
    let _name = source.word()?;
    read_phase(source)?;
    read_decimals(source, 6)
}

/// Behind the word `GATE` of this line.
fn read_gate_statement(
    alloc: Global,
    source: &mut Source<'_>,
    progress: &mut Progress,
    line: u64,
) -> Result<(), ReadFault>
    ensures { Reads (λ _. (progress_now progress.new, left source.new)) result
        (text.gate_statement_at (progress_now progress.old) line (left source.old)) }
{
    let gate = read_gate(alloc, source, line)?;
    keep(alloc, &mut progress.cells, &gate)?;
    keep_ports(alloc, &mut progress.ports, &gate)?;
    progress.begun = true;
    Ok(())
}

fn word_kind(word: &[u8]) -> TextKind
    ensures { result ≡ text.word_kind word.now }
{
    if b"LATCH".as_slice() == word {
        TextKind::Latch
    } else {
        TextKind::BadWord
    }
}

/// Behind the word `PIN`.
#[tactic(auto, unfolding(crate::specs::Statements::pin_statement_at))]
fn read_pin_statement(source: &mut Source<'_>, progress: &mut Progress) -> Result<(), ReadFault>
    ensures { Reads (λ _. (progress_now progress.new, left source.new)) result
        (text.pin_statement_at (progress_now progress.old) (left source.old)) }
{
    read_pin(source)
}

/// One statement, which begins with this word.
#[tactic(auto, unfolding(crate::specs::Statements::statement_at))]
fn read_statement(
    alloc: Global,
    source: &mut Source<'_>,
    progress: &mut Progress,
    first: Part<'_>,
) -> Result<(), ReadFault>
    ensures { Reads (λ _. (progress_now progress.new, left source.new)) result
        (text.statement_at (progress_now progress.old)
        (piece first.entry (left source.old))) }
{
    if b"GATE".as_slice() == first.bytes {
        return read_gate_statement(alloc, source, progress, first.line);
    }
    if b"PIN".as_slice() == first.bytes && progress.begun {
        return read_pin_statement(source, progress);
    }
    Err(ReadFault::Stop(Stop::Fault {
        line: first.line,
        kind: word_kind(first.bytes),
    }))
}

/// What is kept of all statements that are left.
#[tactic(auto, using(crate::proofs::StatementSizes::no_statement))]
pub(crate) fn read_statements(alloc: Global, source: &mut Source<'_>) -> Result<Progress, ReadFault>
    ensures { Reads progress_now result (all_kept text.nothing_yet (left source.old)) }
{
    let mut progress = Progress {
        cells: Vec::new(alloc),
        ports: Vec::new(alloc),
        begun: false,
    };
    while let Some(first) = source.next_word() {
        read_statement(alloc, source, &mut progress, first)?;
    }
    Ok(progress)
}
