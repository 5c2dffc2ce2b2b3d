//! The reader of genlib texts.

ghost use Rattle.std.specs.Prelude.{◌≡◌, Err, IfOk};
ghost use Rattle.si_base.specs.Lines.{numbered};
ghost use Rattle.si_cell.specs.Library.{AreCells};
ghost use Rattle.si_words.specs.Ends.{after_last as line_after_last};
ghost use Rattle.si_tokens.specs.declared.fault.Stop.TheVariants as stops;
ghost use Rattle.si_genlib.specs.GenlibText as spec;
ghost use Rattle.si_genlib.specs.Loops.Held.{progress_now};
ghost use Rattle.si_genlib.specs.Ports.{ArePorts};
ghost use Rattle.si_base.specs.TextFaults.{Shows as TextShows, Gives};
ghost use Rattle.si_tokens.specs.Unread as unread;

use crate::ports::PortedLibrary;
use crate::statements::{Progress, read_statements};
use si_base::fault::{TextFault, TextKind};
use si_base::lines::{Lines, has_bad_byte};
use si_base::text::Name;
use si_cell::library::Library;
use si_tokens::fault::{ReadFault, Stop};
use si_tokens::source::Source;
use si_words::ends::after_last;
use std::alloc::Global;

/// The number of the first line that has a bad byte.
fn bad_line(text: &[u8]) -> Option<u64>
    ensures { result ≡ unread.bad_line (numbered text.now) }
{
    let mut lines = Lines::new(text);
    while let Some(line) = lines.next_line() {
        if has_bad_byte(line.bytes) {
            return Some(line.number);
        }
    }
    None
}

/// The fault where the lines that can be read end inside a statement.
fn cut_fault(text: &[u8]) -> TextFault
    ensures { TextShows result (spec.end_fault (line_after_last text.now)
        (unread.bad_line (numbered text.now)) (Err stops.Cut)) }
{
    match bad_line(text) {
        Some(line) => TextFault::At {
            line,
            kind: TextKind::BadByte,
        },
        None => TextFault::At {
            line: after_last(text),
            kind: TextKind::NoEnd,
        },
    }
}

fn stop_fault(text: &[u8], stop: Stop) -> TextFault
    ensures { TextShows result (spec.end_fault (line_after_last text.now)
        (unread.bad_line (numbered text.now)) (Err stop)) }
{
    match stop {
        Stop::Cut => cut_fault(text),
        Stop::Fault { line, kind } => TextFault::At { line, kind },
    }
}

/// What is kept of the gates of the text: the cells that they become, in their order, and the names
/// of the cells' ports.
#[tactic(auto, unfolding(crate::specs::GenlibText::genlib_fault))]
fn read_kept(alloc: Global, text: &[u8]) -> Result<Progress, TextFault>
    ensures gives { Gives progress_now result (spec.genlib_fault text.now) (spec.kept_of text.now) }
    ensures cells { IfOk result (λ kept. AreCells kept.cells.items) }
    ensures ports { IfOk result (λ kept. ArePorts kept.cells.items kept.ports.items) }
{
    let mut source = Source::new(text);
    match read_statements(alloc, &mut source) {
        Ok(kept) => match bad_line(text) {
            Some(line) => Err(TextFault::At {
                line,
                kind: TextKind::BadByte,
            }),
            None => Ok(kept),
        },
        Err(ReadFault::NoMemory) => Err(TextFault::NoMemory),
        Err(ReadFault::Stop(stop)) => Err(stop_fault(text, stop)),
    }
}

/// The library that the text spells, as [`read_genlib`] reads it, with the names that the text
/// gives to the ports of its cells: to the output the name before `=`, and to the pins those in the
/// expression, in order of first appearance.
///
/// # Errors
///
/// `At` the line of the first fault, exactly where the text has one; the faults are those of
/// [`read_genlib`]. `NoMemory` only where memory runs out.
#[tactic(auto, unfolding(crate::specs::GenlibText::library_of, crate::specs::GenlibText::ported_of))]
pub fn read_ported(alloc: Global, text: &[u8]) -> Result<PortedLibrary, TextFault>
    ensures { Gives (λ ported. ported) result (spec.genlib_fault text.now)
        (spec.ported_of text.now) }
{
    let Progress { cells, ports, .. } = read_kept(alloc, text)?;
    let name = Name::copy_of(alloc, b"genlib")?;
    let library = Library::make(name, cells);
    Ok(PortedLibrary::make(library, ports))
}

/// The library that the text spells: a cell for each gate that is kept, in their order.
///
/// The statements are `GATE NAME AREA OUT = EXPRESSION ;`, and behind them `PIN NAME PHASE` with
/// six decimal words. A gate with more than [`MAX_PINS`](si_cell::limits::MAX_PINS) pins besides
/// its own output is passed over. The pins of a cell are `p1`, `p2` and so on, in order of first
/// appearance. Its name is that of the gate with `_` for each byte that a name can't have, with
/// `_` in front where no letter and no `_` begins it, and with `_` behind it while an earlier cell
/// has that name. Its sum is chosen for the values of the expression, in which the output stands
/// for the cell's own output. The name of the library is `genlib`.
///
/// # Errors
///
/// `At` the line of the first fault, exactly where the text has one. A line's `BadByte` comes when
/// the line begins. A name, output or `=` that can't be read is `BadGate`; a word that isn't
/// decimal is `BadNumber`; a phase that is none of `INV`, `NONINV` and `UNKNOWN` is `BadPin`;
/// `LATCH` is `Latch`, and another word where a statement is due is `BadWord`. A token with which
/// an expression can't go on is `BadExpression`; one operator too many whose operand isn't
/// finished is `TooDeep`. At the line of its `GATE`, a gate that falls with its own output is
/// `OwnFalling`, and one that is kept beyond [`MAX_CELLS`](si_cell::limits::MAX_CELLS) is
/// `TooManyCells`. A text that ends within a statement is `NoEnd` at the line after the last.
/// `NoMemory` only where memory runs out.
#[tactic(auto, unfolding(crate::specs::GenlibText::ported_of))]
pub fn read_genlib(alloc: Global, text: &[u8]) -> Result<Library, TextFault>
    ensures { Gives (λ library. library) result (spec.genlib_fault text.now)
        (spec.library_of text.now) }
{
    let ported = read_ported(alloc, text)?;
    Ok(ported.into_library())
}
