//! The states at which the gate of a new signal forces its value.

ghost use Rattle.std.specs.Prelude.{◌≡◌, ◌<◌, length, IfOk};
ghost use Rattle.si_base.specs.Limits.{max_signals};
ghost use Rattle.si_netlist.specs.Loops.Parts.{gate_seen};
ghost use Rattle.si_by_hand.specs.Forcing.{forced_at};
ghost use Rattle.si_by_hand.specs.Loops.ForcedSets.{IsForcedSet};

use si_base::ids::{NoMemory, Sig, StateId};
use si_base::sets::StateSet;
use si_graph::coded::Coded;
use si_netlist::gate::Gate;
use std::alloc::Global;

/// The states that the gate of the new signal `z` forces to the value. It fails only where memory
/// runs out.
pub(crate) fn forced_states(
    alloc: Global,
    coded: &Coded,
    gate: &Gate,
    z: Sig,
    value: bool,
) -> Result<StateSet, NoMemory>
    requires new { z ≡ length coded.now.graph.signals }
    requires room { z < max_signals }
    ensures { IfOk result (IsForcedSet (forced_at (gate_seen gate.now) coded.now value)
        coded.now.graph.states) }
{
    let states = coded.graph().states();
    let mut set = StateSet::new(alloc, states)?;
    for s in 0..states {
        if is_forced(coded, gate, z, value, StateId(s)) {
            set.add(StateId(s));
        }
    }
    Ok(set)
}

/// Whether the gate of the new signal `z` forces the value at the state: it has the value there,
/// also where the signal has the other one.
fn is_forced(coded: &Coded, gate: &Gate, z: Sig, value: bool, s: StateId) -> bool
    requires new { z ≡ length coded.now.graph.signals }
    requires room { z < max_signals }
    requires state { s < coded.now.graph.states }
    ensures { result ≡ forced_at (gate_seen gate.now) coded.now value s }
{
    let code = coded.code(s);
    let other = if value { code } else { code.flip(z) };
    gate.value(z, other) == value
}
