//! The gates of parts over the signals of the whole.

ghost use Rattle.std.specs.Prelude.{◌≡◌, ◌≤◌, ◌<◌, IfOk, MatchOption, length, map, vec_items};
ghost use Rattle.si_base.specs.Graph.{IsNonInput};
ghost use Rattle.si_base.specs.Limits.{max_signals};
ghost use Rattle.si_joins.specs.Gates as gates;
ghost use Rattle.si_joins.specs.Loops.Parts.{ArePlaced};
ghost use Rattle.si_netlist.specs.Loops.Parts.{gate_seen};

use crate::cubes::{renamed_pins, renamed_sum};
use si_base::graph::Signal;
use si_base::ids::{NoMemory, Sig};
use si_base::text::Name;
use si_cube::sum::Sum;
use si_netlist::gate::Gate;
use si_netlist::netlist::Netlist;
use std::alloc::Global;

/// The gate over n signals of the whole.
fn renamed_gate(alloc: Global, to: &[usize], n: usize, gate: &Gate) -> Result<Gate, NoMemory>
    requires { n ≤ max_signals }
    ensures { IfOk result
        (λ new. gate_seen new ≡ gates.renamed_gate to.now n (gate_seen gate.now)) }
{
    match gate {
        Gate::Sum(sum) => Ok(Gate::Sum(renamed_sum(alloc, to, n, sum)?)),
        Gate::Gc { set, reset } => Ok(Gate::Gc {
            set: renamed_sum(alloc, to, n, set)?,
            reset: renamed_sum(alloc, to, n, reset)?,
        }),
        Gate::Cell {
            name,
            literals,
            sum,
        } => Ok(Gate::Cell {
            name: Name::copy_of(alloc, name.bytes())?,
            literals: renamed_pins(alloc, to, n, literals)?,
            sum: renamed_sum(alloc, to, n, sum)?,
        }),
    }
}

/// The first signal of a part that the part drives and that stands at k.
fn driven_at(k: usize, signals: &[Signal], to: &[usize]) -> Option<usize>
    requires { length to.now ≡ length signals.now }
    ensures { result ≡ gates.driven_at k 0 signals.now to.now }
{
    for z in 0..signals.len() {
        if signals[z].kind.is_driven() && to[z] == k {
            return Some(z);
        }
    }
    None
}

/// The gate of signal k of the whole, of n signals: that of the first part that drives it.
pub(crate) fn joined_gate(
    alloc: Global,
    n: usize,
    parts: &[Netlist],
    tos: &[Vec<usize>],
    k: usize,
) -> Result<Gate, NoMemory>
    requires few { n ≤ max_signals }
    requires placed { ArePlaced parts.now (map vec_items tos.now) }
    ensures { IfOk result (λ gate. gate_seen gate
        ≡ gates.joined_gate n parts.now (map vec_items tos.now) k) }
{
    for i in 0..parts.len() {
        let part = &parts[i];
        let to = &tos[i];
        if let Some(z) = driven_at(k, part.signals(), to) {
            return renamed_gate(alloc, to, n, part.gate_of(Sig(z as u8)));
        }
    }
    Ok(Gate::Sum(Sum::new(Vec::new(alloc))))
}
