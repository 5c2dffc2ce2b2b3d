//! Cells, read from the words of their lines.

ghost use Rattle.std.specs.Prelude.{◌≡◌, ◌≢◌, ◌≤◌, ◌<◌, ◌+◌, ◌++◌, ◌∷◌, [], AllPairs};
ghost use Rattle.std.specs.Prelude.{length, IfOk, OnOk, IfErr, None, Some, is_some, false, if◌then◌else◌};
ghost use Rattle.si_base.specs.Faults.{◌otherwise◌, first_after};
ghost use Rattle.si_base.specs.TextFaults.{Tells};
ghost use Rattle.si_base.specs.declared.fault.LineFault.TheVariants as line_faults;
ghost use Rattle.si_base.specs.declared.fault.TextKind.TheVariants as text_kinds;
ghost use Rattle.si_words.specs.Names.{stands_in};
ghost use Rattle.si_words.specs.Loops.Reads.{words_now};
ghost use Rattle.si_cell.specs.CellWords.{cell_name_fault, pin_fault, cell_fault, cell_of};
ghost use Rattle.si_cell.specs.CellWords.{declared, front_fault, sum_part};
ghost use Rattle.si_cell.specs.Library.{IsCell};
ghost use Rattle.si_cell.specs.LibraryText.{names_of};
ghost use Rattle.si_cell.specs.Limits.{max_cells, max_pins};
ghost use Rattle.si_cell.specs.Loops.Reads.{cell_words_now};

use crate::cell::Cell;
use crate::limits::{MAX_CELLS, MAX_PINS};
use crate::sums::read_sum;
use crate::words::Front;
use si_base::fault::{LineFault, TextKind};
use si_base::ids::NoMemory;
use si_base::lines::Words;
use si_base::names::Names;
use si_base::text::Name;
use si_words::lists::has;
use si_words::words::is_signal_name;
use std::alloc::Global;

/// The name that stands for a cell's own output.
const OWN: &[u8] = b"q";

/// Whether a cell of the name is there.
fn has_cell(cells: &[Cell], name: &[u8]) -> bool
    ensures { result ≡ stands_in (names_of cells.now) name.now }
{
    cells.iter().any(|cell| name == cell.name.bytes())
}

/// The fault of a cell's name after these cells.
fn cell_name_kind(cells: &[Cell], name: &[u8]) -> Option<TextKind>
    ensures { result ≡ cell_name_fault (names_of cells.now) name.now }
{
    if !is_signal_name(name) {
        Some(TextKind::BadName)
    } else if has_cell(cells, name) {
        Some(TextKind::Repeated)
    } else if cells.len() >= MAX_CELLS {
        Some(TextKind::TooManyCells)
    } else {
        None
    }
}

/// The fault of a pin after these.
fn pin_kind(pins: &Names, name: &[u8]) -> Option<TextKind>
    ensures { result ≡ pin_fault pins.now name.now }
{
    if !is_signal_name(name) || OWN == name {
        Some(TextKind::BadName)
    } else if has(pins, name) {
        Some(TextKind::Repeated)
    } else if pins.len() as usize >= MAX_PINS {
        Some(TextKind::TooManyPins)
    } else {
        None
    }
}

/// Puts a new name last.
fn push(names: &mut Names, name: &[u8]) -> Result<(), LineFault>
    requires new { stands_in names.old name.now ≡ false }
    requires room { length names.old ≤ max_pins }
    ensures ok { OnOk result (names.new ≡ names.old ++ name.now ∷ []) }
    ensures err { IfErr result (λ e. e ≡ line_faults.NoMemory) }
    ensures distinct { AllPairs (λ x y. x ≢ y) names.new }
{
    match names.add(name, MAX_PINS as u32 + 1) {
        Ok(_) => Ok(()),
        Err(_) => Err(LineFault::NoMemory),
    }
}

/// The names that the literals of a cell may have: its pins, and the own output behind them.
///
/// Fails with the first fault of a pin, and where memory runs out.
fn declared_names(alloc: Global, pins: &[&[u8]]) -> Result<Names, LineFault>
    ensures fault { Tells result (first_after pin_fault [] (words_now pins.now)) }
    ensures value { IfOk result (λ names. names ≡ declared (words_now pins.now)) }
{
    let mut names = Names::new(alloc)?;
    for pin in pins {
        if let Some(kind) = pin_kind(&names, *pin) {
            return Err(LineFault::Kind(kind));
        }
        push(&mut names, *pin)?;
    }
    push(&mut names, OWN)?;
    Ok(names)
}

/// The words as names.
fn names_of(alloc: Global, words: &[&[u8]]) -> Result<Vec<Name>, NoMemory>
    ensures { IfOk result (λ names. names.items ≡ words_now words.now) }
{
    let mut names = Vec::new(alloc);
    for word in words {
        names.push(Name::copy_of(alloc, *word)?)?;
    }
    Ok(names)
}

/// The names that the literals of a cell may have, where its front has no fault after these cells.
///
/// Fails with the first fault of the name and the pins, and where memory runs out.
fn names_for(alloc: Global, cells: &[Cell], front: &Front<'_>) -> Result<Names, LineFault>
    ensures fault { Tells result
        (front_fault (names_of cells.now) (cell_words_now front.now [])) }
    ensures value { IfOk result (λ names. names ≡ declared (words_now front.now.pins.items)) }
{
    if let Some(kind) = cell_name_kind(cells, front.name) {
        return Err(LineFault::Kind(kind));
    }
    declared_names(alloc, &front.pins)
}

/// The fault of a line that has this one before its sum, whose words are left. That they have
/// another form comes first.
fn line_fault(alloc: Global, fault: LineFault, words: &mut Words<'_>) -> Result<LineFault, NoMemory>
    ensures { IfOk result (λ first. first
        ≡ (if is_some (sum_part [] words.old) then fault else line_faults.Kind text_kinds.BadLine)) }
{
    let declared = Names::new(alloc)?;
    if read_sum(alloc, &declared, words)?.is_some() {
        Ok(fault)
    } else {
        Ok(LineFault::Kind(TextKind::BadLine))
    }
}

/// The cell of this front, after these cells, where the words of its sum are left.
///
/// Fails with the first fault of the line, and where memory runs out.
pub(crate) fn read_cell(
    alloc: Global,
    cells: &[Cell],
    front: &Front<'_>,
    words: &mut Words<'_>,
) -> Result<Cell, LineFault>
    ensures fault { Tells result
        (cell_fault (names_of cells.now) (Some (cell_words_now front.now words.old))) }
    ensures value { IfOk result (λ cell. cell ≡ cell_of (cell_words_now front.now words.old)) }
    ensures cell { IfOk result IsCell }
    ensures new { IfOk result (λ cell. stands_in (names_of cells.now) cell.name ≡ false) }
    ensures room { IfOk result (λ cell. length cells.now < max_cells) }
{
    let declared = match names_for(alloc, cells, front) {
        Ok(declared) => declared,
        Err(fault) => return Err(line_fault(alloc, fault, words)?),
    };
    let Some(sum) = read_sum(alloc, &declared, words)? else {
        return Err(LineFault::Kind(TextKind::BadLine));
    };
    let sum = match sum {
        Ok(sum) => sum,
        Err(kind) => return Err(LineFault::Kind(kind)),
    };
    let name = Name::copy_of(alloc, front.name)?;
    let pins = names_of(alloc, &front.pins)?;
    Ok(Cell::new(name, pins, sum))
}
