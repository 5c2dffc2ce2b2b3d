//! Whether a gate is an instance of a cell of the library, by literals that are plain or get
//! inverters, or why not.

ghost use Rattle.std.specs.Prelude.{◌≡◌, ◌≢◌, ◌<◌, ◌≤◌, All, IfErr, IfOk, IsTrue, MatchOption};
ghost use Rattle.std.specs.Prelude.{OnOk, length, slice_index_or};
ghost use Rattle.std.specs.Bool.{Decides};
ghost use Rattle.si_base.specs.Limits.{code_width};
ghost use Rattle.si_base.specs.Netlist.{Cell as CellGate};
ghost use Rattle.si_netlist.specs.Loops.Parts.{gate_seen};
ghost use Rattle.si_cell.specs.Expanded.{expanded};
ghost use Rattle.si_cell.specs.Library.{cell_at, no_cell};
ghost use Rattle.si_cell.specs.Limits.{max_cells, max_pins};
ghost use Rattle.si_structure.specs.Refusals as refusals;
ghost use Rattle.si_structure.specs.Refusals.{IsFirstComplemented, IsPlacedGate, ShowsOfGate};
ghost use Rattle.si_structure.specs.Loops.Deciding.{AreSmall, FitsCells, HasNoInverter};
ghost use Rattle.si_structure.specs.Loops.Deciding.{IsFirstInverter};

use crate::cells::is_inverter;
use crate::complements::Complements;
use crate::refusal::Unstructured;
use arrayvec::ArrayVec;
use si_base::ids::{Literal, NoMemory, Sig};
use si_cell::cell::{Cell, Instance, PinLiteral};
use si_cell::expand::expand;
use si_cell::library::Library;
use si_cube::cube::Cube;
use si_cube::sum::Sum;
use si_netlist::gate::Gate;
use std::alloc::Global;

/// Whether the gate of signal `z` is an instance of a cell of the library, by literals that are
/// plain or get inverters.
///
/// Fails with what it is instead, and where memory runs out.
pub(crate) fn check_gate(
    alloc: Global,
    library: &Library,
    complements: Complements,
    z: Sig,
    gate: &Gate,
) -> Result<(), Unstructured>
    requires signal { z < code_width }
    requires fits { FitsCells (gate_seen gate.now) }
    ensures ok { OnOk result
        (IsPlacedGate library.now complements z (gate_seen gate.now)) }
    ensures err { IfErr result (ShowsOfGate library.now complements z (gate_seen gate.now)) }
{
    match gate {
        Gate::Cell {
            name,
            literals,
            sum,
        } => check_cell(
            alloc,
            library,
            complements,
            z,
            name.bytes(),
            literals.as_slice(),
            sum,
        ),
        Gate::Sum(_) | Gate::Gc { .. } => Err(Unstructured::NoInstance { sig: z }),
    }
}

/// Whether the gate of signal `z`, which has the name of a cell, is an instance of it by literals
/// that are plain or get inverters.
fn check_cell(
    alloc: Global,
    library: &Library,
    complements: Complements,
    z: Sig,
    name: &[u8],
    literals: &[Literal],
    sum: &Sum,
) -> Result<(), Unstructured>
    requires signal { z < code_width }
    requires small { AreSmall literals.now }
    ensures ok { OnOk result
        (IsPlacedGate library.now complements z (CellGate name.now literals.now sum.now)) }
    ensures err { IfErr result
        (ShowsOfGate library.now complements z (CellGate name.now literals.now sum.now)) }
{
    let Some(cell) = place_of(library.cells(), name) else {
        return Err(Unstructured::NoInstance { sig: z });
    };
    if !is_instance(alloc, library, z, cell, literals, sum)? {
        return Err(Unstructured::NoInstance { sig: z });
    }
    if inverts(complements, library.cells()) {
        return Ok(());
    }
    match first_complemented(literals) {
        Some(pin) => Err(Unstructured::Complemented { sig: z, cell, pin }),
        None => Ok(()),
    }
}

/// Whether complemented literals get inverters: that is asked for, and one of the cells is one.
fn inverts(complements: Complements, cells: &[Cell]) -> bool
    requires few { length cells.now ≤ max_cells }
    requires pins { All (λ c. length c.pins ≤ max_pins) cells.now }
    ensures { result ≡ refusals.inverts complements cells.now }
{
    match complements {
        Complements::Refused => false,
        Complements::Inverted => place_of_inverter(cells).is_some(),
    }
}

/// The place of the first inverter, from 0.
pub(crate) fn place_of_inverter(cells: &[Cell]) -> Option<u8>
    requires few { length cells.now ≤ max_cells }
    requires pins { All (λ c. length c.pins ≤ max_pins) cells.now }
    ensures { MatchOption result (HasNoInverter cells.now) (IsFirstInverter cells.now) }
{
    for (k, cell) in cells.iter().enumerate() {
        if is_inverter(cell) {
            return Some(k as u8);
        }
    }
    None
}

/// The place of the cell of the name, from 0.
pub fn place_of(cells: &[Cell], name: &[u8]) -> Option<u8>
    requires { length cells.now ≤ max_cells }
    ensures { MatchOption result (All (λ c. c.name ≢ name.now) cells.now)
        (λ k. (k < length cells.now)
        × ((slice_index_or cells.now k no_cell).name ≡ name.now)) }
{
    for (k, cell) in cells.iter().enumerate() {
        if cell.name.bytes() == name {
            return Some(k as u8);
        }
    }
    None
}

/// Whether the cell at that place has a pin for each of these literals, and the sum, over them and
/// signal `z`. It fails only where memory runs out.
pub fn is_instance(
    alloc: Global,
    library: &Library,
    z: Sig,
    cell: u8,
    literals: &[Literal],
    sum: &Sum,
) -> Result<bool, NoMemory>
    requires signal { z < code_width }
    requires cell { cell < length library.now.cells }
    requires few { length literals.now ≤ max_pins }
    requires there { All (λ l. l.sig < code_width) literals.now }
    ensures { IfOk result (λ is. Decides is
        ((length literals.now ≡ length (cell_at library.now cell).pins) × (sum.now
        ≡ expanded library.now (record { cell = cell; literals = literals.now }) z))) }
{
    if literals.len() != library.cell(cell).pins.len() {
        return Ok(false);
    }
    let instance = instance_of(cell, literals);
    let wanted = expand(alloc, library, &instance, z)?;
    Ok(same_cubes(sum.cubes(), wanted.cubes()))
}

/// The cell at that place with these literals.
fn instance_of(cell: u8, literals: &[Literal]) -> Instance
    requires { length literals.now ≤ max_pins }
    ensures { result ≡ record { cell = cell; literals = literals.now } }
{
    let mut at_pins = ArrayVec::new();
    for literal in literals {
        at_pins.push(PinLiteral(*literal));
    }
    Instance {
        cell,
        literals: at_pins,
    }
}

/// Whether two lists of cubes are the same.
fn same_cubes(a: &[Cube], b: &[Cube]) -> bool
    ensures { Decides result (a.now ≡ b.now) }
{
    let mut left = b;
    for cube in a {
        let [first, rest @ ..] = left else {
            return false;
        };
        if !is_same(cube, first) {
            return false;
        }
        left = rest;
    }
    left.is_empty()
}

/// Whether two cubes have the same literals.
fn is_same(a: &Cube, b: &Cube) -> bool
    ensures { Decides result (a.now ≡ b.now) }
{
    a.care.0 == b.care.0 && a.value.0 == b.value.0
}

/// The place of the first complemented literal, from 0.
fn first_complemented(literals: &[Literal]) -> Option<u8>
    requires { length literals.now ≤ max_pins }
    ensures { MatchOption result (All (λ l. IsTrue l.plain) literals.now)
        (IsFirstComplemented literals.now) }
{
    for (pin, literal) in literals.iter().enumerate() {
        if !literal.plain {
            return Some(pin as u8);
        }
    }
    None
}
