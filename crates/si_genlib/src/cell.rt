//! The cells that gates become.

ghost use Rattle.std.specs.Prelude.{◌≡◌, ◌+◌, ◌<◌, ◌≤◌, take, length, IfOk};
ghost use Rattle.si_base.specs.Words as words;
ghost use Rattle.si_words.specs.Names.{stands_in};
ghost use Rattle.si_cell.specs.LibraryText.{names_of};
ghost use Rattle.si_cell.specs.Limits.{max_pins};
ghost use Rattle.si_genlib.specs.Gate as spec;
ghost use Rattle.si_genlib.specs.Gate.{Gate as GateValue};
ghost use Rattle.si_tokens.specs.Loops.Parts.{Reads};
ghost use Rattle.si_genlib.specs.Loops.Held.{gate_now};
ghost use Rattle.si_genlib.specs.Loops.Tables.{tabled, table_value};

use crate::demand::sum_of;
use crate::gate::Gate;
use crate::table::falls;
use si_base::fault::TextKind;
use si_base::ids::NoMemory;
use si_base::text::Name;
use si_cell::cell::Cell;
use si_cell::limits::MAX_CELLS;
use si_cell::pin_sum::PinSum;
use si_tokens::fault::{ReadFault, Stop};
use si_words::words::is_name_byte;
use std::alloc::Global;

fn is_letter(b: u8) -> bool
    ensures { result ≡ words.is_letter b }
{
    b.is_ascii_alphabetic() || b == b'_'
}

fn lawful_byte(b: u8) -> u8
    ensures { result ≡ spec.lawful_byte b }
{
    if is_name_byte(b) { b } else { b'_' }
}

/// `_`, where the name begins with no letter and no `_`.
fn front(alloc: Global, name: &[u8]) -> Result<Vec<u8>, NoMemory>
    ensures { IfOk result (λ bytes. bytes.items ≡ spec.front name.now) }
{
    let mut bytes = Vec::new(alloc);
    match name {
        [] => Ok(bytes),
        [first, ..] => {
            if is_letter(lawful_byte(*first)) {
                return Ok(bytes);
            }
            bytes.push(b'_')?;
            Ok(bytes)
        }
    }
}

fn lawful(alloc: Global, name: &[u8]) -> Result<Vec<u8>, NoMemory>
    ensures { IfOk result (λ bytes. bytes.items ≡ spec.lawful name.now) }
{
    let mut bytes = front(alloc, name)?;
    for b in name {
        bytes.push(lawful_byte(*b))?;
    }
    Ok(bytes)
}

fn has_cell(cells: &[Cell], name: &[u8]) -> bool
    ensures { result ≡ stands_in (names_of cells.now) name.now }
{
    cells.iter().any(|cell| name == cell.name.bytes())
}

/// The name with `_` at its end while a cell has it.
fn fresh(cells: &[Cell], first: Vec<u8>) -> Result<Vec<u8>, NoMemory>
    ensures { IfOk result
        (λ name. name.items ≡ spec.fresh (length cells.now) (names_of cells.now) first.items) }
{
    let mut name = first;
    let count = cells.len();
    for _ in 0..count {
        if !has_cell(cells, name.as_slice()) {
            return Ok(name);
        }
        name.push(b'_')?;
    }
    Ok(name)
}

fn pin_name(k: u32) -> &'static [u8]
    ensures { result.now ≡ spec.pin_name k }
{
    if k == 0 {
        b"p1"
    } else if k == 1 {
        b"p2"
    } else if k == 2 {
        b"p3"
    } else {
        b"p4"
    }
}

/// The names of a cell's pins.
fn pin_names(alloc: Global, count: u32) -> Result<Vec<Name>, NoMemory>
    requires { count ≤ max_pins }
    ensures { IfOk result (λ names. names.items ≡ take count spec.pin_names) }
{
    let mut names = Vec::new(alloc);
    for k in 0..count {
        let name = Name::copy_of(alloc, pin_name(k))?;
        names.push(name)?;
    }
    Ok(names)
}

/// The cell of a gate, behind these.
fn cell_of(alloc: Global, cells: &[Cell], gate: &Gate<'_>) -> Result<Cell, NoMemory>
    requires { length (gate_now gate.now).pins.names ≤ max_pins }
    ensures { IfOk result (λ cell. cell ≡ record {
      name = spec.cell_name (names_of cells.now) gate.now.name.now;
      pins = take (length (gate_now gate.now).pins.names) spec.pin_names;
      sum = spec.sum_of (spec.bits_of (gate_now gate.now).pins)
          (table_value (length (gate_now gate.now).pins.names) gate.now.table);
    }) }
{
    let count = gate.pins.names.len() as u32;
    let bits = count + u32::from(gate.pins.own);
    let name = fresh(cells, lawful(alloc, gate.name)?)?;
    let name = Name::copy_of(alloc, name.as_slice())?;
    let pins = pin_names(alloc, count)?;
    let cover = sum_of(alloc, bits, count, gate.table)?;
    let sum = PinSum::of(alloc, &cover)?;
    Ok(Cell::new(name, pins, sum))
}

/// Adds the cell of a gate, if it isn't passed over.
pub(crate) fn keep(alloc: Global, cells: &mut Vec<Cell>, gate: &Gate<'_>) -> Result<(), ReadFault>
    requires { length (gate_now gate.now).pins.names ≤ max_pins }
    ensures { (g : GateValue) → tabled g ≡ gate_now gate.now
        → Reads (λ _. cells.new.items) result (spec.with_gate cells.old.items g) }
{
    if gate.pins.more {
        return Ok(());
    }
    let count = gate.pins.names.len() as u32;
    if falls(count, gate.table) {
        return Err(ReadFault::Stop(Stop::Fault {
            line: gate.line,
            kind: TextKind::OwnFalling,
        }));
    }
    if cells.len() >= MAX_CELLS {
        return Err(ReadFault::Stop(Stop::Fault {
            line: gate.line,
            kind: TextKind::TooManyCells,
        }));
    }
    let cell = cell_of(alloc, cells, gate)?;
    cells.push(cell)?;
    Ok(())
}
