//! Netlists with other start values of their hidden signals.

ghost use Rattle.std.specs.Prelude.{◌≡◌, ◌+◌, ◌-◌, ◌*◌, ◌<◌, ◌≤◌, ◌^◌, IfOk, length, map};
ghost use Rattle.si_base.specs.Limits.{max_signals};
ghost use Rattle.si_netlist.specs.Loops.Parts.{gate_seen};
ghost use Rattle.si_from_equations.specs.Beside as spec;

use crate::beside::unknown_inserts;
use si_base::graph::Signal;
use si_base::ids::{Code, NoMemory};
use si_base::text::Name;
use si_cube::cube::Cube;
use si_cube::sum::Sum;
use si_netlist::gate::Gate;
use si_netlist::netlist::Netlist;
use std::alloc::Global;

/// The netlist where the signals behind so many given ones, which start with 0, start with the bits
/// of the number instead. Where its inserted signals rise and fall isn't known. It fails only where
/// memory runs out.
pub fn started(
    alloc: Global,
    netlist: &Netlist,
    given: usize,
    values: Code,
) -> Result<Netlist, NoMemory>
    requires given { given ≤ length netlist.now.signals }
    requires start { netlist.now.start < 2 ^ given }
    requires values { values < 2 ^ (length netlist.now.signals - given) }
    ensures { IfOk result (λ n. n ≡ spec.started given values netlist.now) }
{
    let model = Name::copy_of(alloc, netlist.model().bytes())?;
    let signals = copied_signals(alloc, netlist.signals())?;
    let hidden = netlist.signals().len() - given;
    let start = with_values(netlist.start(), given, hidden, values);
    let inserts = unknown_inserts(alloc, netlist.signals())?;
    let gates = copied_gates(alloc, netlist.gates())?;
    Ok(Netlist::make(model, signals, start, inserts, gates))
}

/// The code of so many given signals with the values of so many hidden ones behind them.
fn with_values(start: Code, given: usize, hidden: usize, values: Code) -> Code
    requires few { given + hidden ≤ max_signals }
    requires start { start < 2 ^ given }
    requires values { values < 2 ^ hidden }
    ensures { result ≡ values * 2 ^ given + start }
{
    if hidden == 0 {
        return start;
    }
    Code(values.0 << given | start.0)
}

/// Copies of the signals.
fn copied_signals(alloc: Global, signals: &[Signal]) -> Result<Vec<Signal>, NoMemory>
    ensures { IfOk result (λ copies. copies.items ≡ signals.now) }
{
    let mut copies = Vec::new(alloc);
    for signal in signals {
        copies.push(Signal {
            name: Name::copy_of(alloc, signal.name.bytes())?,
            kind: signal.kind,
        })?;
    }
    Ok(copies)
}

/// Copies of the gates.
fn copied_gates(alloc: Global, gates: &[Gate]) -> Result<Vec<Gate>, NoMemory>
    ensures { IfOk result (λ copies. map gate_seen copies.items ≡ map gate_seen gates.now) }
{
    let mut copies = Vec::new(alloc);
    for gate in gates {
        copies.push(copied_gate(alloc, gate)?)?;
    }
    Ok(copies)
}

/// A copy of the gate.
fn copied_gate(alloc: Global, gate: &Gate) -> Result<Gate, NoMemory>
    ensures { IfOk result (λ copy. gate_seen copy ≡ gate_seen gate.now) }
{
    match gate {
        Gate::Sum(sum) => Ok(Gate::Sum(copied_sum(alloc, sum)?)),
        Gate::Gc { set, reset } => Ok(Gate::Gc {
            set: copied_sum(alloc, set)?,
            reset: copied_sum(alloc, reset)?,
        }),
        Gate::Cell {
            name,
            literals,
            sum,
        } => Ok(Gate::Cell {
            name: Name::copy_of(alloc, name.bytes())?,
            literals: Vec::from_slice(alloc, literals.as_slice())?,
            sum: copied_sum(alloc, sum)?,
        }),
    }
}

/// A copy of the sum.
fn copied_sum(alloc: Global, sum: &Sum) -> Result<Sum, NoMemory>
    ensures { IfOk result (λ copy. copy ≡ sum.now) }
{
    let mut cubes = Vec::new(alloc);
    for cube in sum.cubes() {
        cubes.push(Cube {
            care: cube.care,
            value: cube.value,
        })?;
    }
    Ok(Sum::new(cubes))
}
