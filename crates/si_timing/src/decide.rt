//! Whether a gate is an instance of a cell of the library.

ghost use Rattle.std.specs.Prelude.{◌<◌, ◌≤◌, All, IfOk, length};
ghost use Rattle.std.specs.Bool.{Decides};
ghost use Rattle.si_base.specs.Limits.{code_width, max_signals};
ghost use Rattle.si_base.specs.Netlist.{Cell as CellGate};
ghost use Rattle.si_base.specs.WellFormed.{IsGate};
ghost use Rattle.si_netlist.specs.Loops.Parts.{gate_seen};
ghost use Rattle.si_cell.specs.Limits.{max_pins};
ghost use Rattle.si_timing.specs.Refusals.{IsCellGate};

use si_base::ids::{Literal, NoMemory, Sig};
use si_cell::library::Library;
use si_cube::sum::Sum;
use si_netlist::gate::Gate;
use si_structure::decide::{is_instance, place_of};
use std::alloc::Global;

/// Whether the gate of signal `z` is an instance of a cell of the library, by any literals.
///
/// It fails only where memory runs out.
pub(crate) fn is_cell_gate(
    alloc: Global,
    library: &Library,
    z: Sig,
    gate: &Gate,
) -> Result<bool, NoMemory>
    requires signal { z < code_width }
    requires fits { IsGate max_signals (gate_seen gate.now) }
    ensures { IfOk result (λ is. Decides is (IsCellGate library.now z (gate_seen gate.now))) }
{
    match gate {
        Gate::Cell {
            name,
            literals,
            sum,
        } => is_cell(alloc, library, z, name.bytes(), literals.as_slice(), sum),
        Gate::Sum(_) | Gate::Gc { .. } => Ok(false),
    }
}

/// Whether the gate of signal `z`, which has this name, these literals and this sum, is an instance
/// of the cell of the name.
fn is_cell(
    alloc: Global,
    library: &Library,
    z: Sig,
    name: &[u8],
    literals: &[Literal],
    sum: &Sum,
) -> Result<bool, NoMemory>
    requires signal { z < code_width }
    requires few { length literals.now ≤ max_pins }
    requires there { All (λ l. l.sig < code_width) literals.now }
    ensures { IfOk result (λ is. Decides is
        (IsCellGate library.now z (CellGate name.now literals.now sum.now))) }
{
    match place_of(library.cells(), name) {
        Some(cell) => is_instance(alloc, library, z, cell, literals, sum),
        None => Ok(false),
    }
}
