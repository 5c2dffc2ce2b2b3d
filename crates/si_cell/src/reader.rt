//! The reader of library texts.

ghost use Rattle.std.specs.Prelude.{◌≡◌, [], ◌∷◌, IfOk, OnOk, IsTrue, MatchResult, MatchOption};
ghost use Rattle.std.specs.Prelude.{None, Some, true, false, if◌then◌else◌};
ghost use Rattle.si_base.specs.TextFaults.{Tells, ToldBy, Gives};
ghost use Rattle.si_base.specs.Words.{is_signal_name};
ghost use Rattle.si_words.specs.Sums.{is_empty};
ghost use Rattle.si_cell.specs.Library.{AreCells};
ghost use Rattle.si_words.specs.Ends as text_ends;
ghost use Rattle.si_cell.specs.LibraryText as library_text;
ghost use Rattle.si_cell.specs.Loops.Reads.{ReadsName};

use crate::cell::Cell;
use crate::cell_reader::read_cell;
use crate::library::Library;
use crate::words::take_front;
use si_base::fault::{LineFault, TextFault, TextKind, at_line};
use si_base::lines::{Lines, Words, has_bad_byte};
use si_base::text::Name;
use si_words::ends::after_last;
use si_words::words::is_signal_name;
use std::alloc::Global;

/// The name in the line that names the library, whose first word this is, or the fault of the line.
fn name_after<'a>(head: &[u8], words: &mut Words<'a>) -> Result<&'a [u8], TextKind>
    ensures { MatchResult result
        (λ name. (library_text.name_fault (head.now ∷ words.old) ≡ None)
        × (name.now ≡ library_text.name_in (head.now ∷ words.old)))
        (λ kind. library_text.name_fault (head.now ∷ words.old) ≡ Some kind) }
{
    let (Some(name), None) = (words.next_word(), words.next_word()) else {
        return Err(TextKind::BadLine);
    };
    if b".library".as_slice() != head {
        return Err(TextKind::BadLine);
    }
    if !is_signal_name(name) {
        return Err(TextKind::BadName);
    }
    Ok(name)
}

/// The name of the library, where the line has words.
fn name_of_line(alloc: Global, line: &[u8]) -> Result<Option<Name>, LineFault>
    ensures fault { Tells result (library_text.name_line_fault line.now) }
    ensures value { IfOk result (λ found. MatchOption found
        (is_empty (library_text.words line.now) ≡ true)
        (λ name. (is_empty (library_text.words line.now) ≡ false)
        × (name ≡ library_text.name_in (library_text.words line.now))
        × IsTrue (is_signal_name name))) }
{
    if has_bad_byte(line) {
        return Err(LineFault::Kind(TextKind::BadByte));
    }
    let mut words = Words::new(line, false);
    let Some(head) = words.next_word() else {
        return Ok(None);
    };
    let name = name_after(head, &mut words)?;
    Ok(Some(Name::copy_of(alloc, name)?))
}

/// The name of the library. The lines up to the one that names it are taken.
fn read_name(alloc: Global, text: &[u8], lines: &mut Lines<'_>) -> Result<Name, TextFault>
    ensures ok { IfOk result
        (λ name. ReadsName (text_ends.after_last text.now) lines.old lines.new name) }
    ensures err { ToldBy result
        (library_text.lines_fault (text_ends.after_last text.now) lines.old) }
{
    while let Some(line) = lines.next_line() {
        match name_of_line(alloc, line.bytes) {
            Ok(None) => {}
            Ok(Some(name)) => return Ok(name),
            Err(fault) => return Err(at_line(line.number, fault)),
        }
    }
    Err(TextFault::At {
        line: after_last(text),
        kind: TextKind::NoEnd,
    })
}

/// Adds the cell of a line, if it has one. Answers whether the line ends the text.
fn add_line(alloc: Global, cells: &mut Vec<Cell>, line: &[u8]) -> Result<bool, LineFault>
    requires { AreCells cells.old.items }
    ensures fault { Tells result (library_text.cell_line_fault cells.old.items line.now) }
    ensures end { IfOk result (λ is. is ≡ library_text.is_end (library_text.words line.now)) }
    ensures value { OnOk result (cells.new.items
        ≡ (if library_text.is_end (library_text.words line.now)
        then cells.old.items else library_text.with_line cells.old.items line.now)) }
    ensures cells { OnOk result (AreCells cells.new.items) }
{
    if has_bad_byte(line) {
        return Err(LineFault::Kind(TextKind::BadByte));
    }
    let mut words = Words::new(line, false);
    let Some(head) = words.next_word() else {
        return Ok(false);
    };
    if b".end".as_slice() == head {
        return Ok(true);
    }
    let Some(front) = take_front(alloc, head, &mut words)? else {
        return Err(LineFault::Kind(TextKind::BadLine));
    };
    let cell = read_cell(alloc, cells, &front, &mut words)?;
    cells.push(cell)?;
    Ok(false)
}

/// The cells of these lines, up to `.end`.
fn read_cells(alloc: Global, text: &[u8], lines: &mut Lines<'_>) -> Result<Vec<Cell>, TextFault>
    ensures gives { Gives (λ cells. cells.items) result
        (library_text.cell_lines_fault (text_ends.after_last text.now) [] lines.old)
        (library_text.cells_in [] lines.old) }
    ensures cells { IfOk result (λ cells. AreCells cells.items) }
{
    let mut cells = Vec::new(alloc);
    while let Some(line) = lines.next_line() {
        match add_line(alloc, &mut cells, line.bytes) {
            Ok(false) => {}
            Ok(true) => return Ok(cells),
            Err(fault) => return Err(at_line(line.number, fault)),
        }
    }
    Err(TextFault::At {
        line: after_last(text),
        kind: TextKind::NoEnd,
    })
}

/// The library that the text spells.
///
/// Its first line with words is `.library NAME`, each further one `.cell NAME PINS = SUM` with at
/// most [`MAX_PINS`](crate::limits::MAX_PINS) pins, up to a line that begins with `.end`; `#`
/// begins a comment. A sum is `0`, or cubes with `+` between them; a cube is `1`, or names of pins,
/// with `'` behind a name for the complement, and `q`, the cell's own output, which stands only
/// plain.
///
/// # Errors
///
/// `At` the line of the first fault, exactly where the text has one. A line of another form is
/// `BadLine`, after `BadByte` and before the faults of its words from left to right: a name of
/// another form, or a pin `q`, is `BadName`; a cell, or a pin of the same cell, that stands
/// already, and a signal that stands twice in a cube, is `Repeated`; a literal that is no pin is
/// `Undeclared`; one pin or cell too many is `TooManyPins` or `TooManyCells`. A text that ends
/// before `.end` is `NoEnd` at the line after the last.
/// `NoMemory` only where memory runs out.
pub fn read_library(alloc: Global, text: &[u8]) -> Result<Library, TextFault>
    ensures { Gives (λ library. library) result (library_text.library_fault text.now)
        (library_text.library_of text.now) }
{
    let mut lines = Lines::new(text);
    let name = read_name(alloc, text, &mut lines)?;
    let cells = read_cells(alloc, text, &mut lines)?;
    Ok(Library::make(name, cells))
}
