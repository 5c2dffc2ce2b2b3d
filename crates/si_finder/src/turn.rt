//! Where a state of the circuit shows the next hidden signal about to switch.

ghost use Rattle.std.specs.Prelude.{◌≡◌, ◌<◌, ℕ, Bool, MatchOption};
ghost use Rattle.si_base.specs.Graph.{IsNonInput};
ghost use Rattle.si_base.specs.Limits.{max_signals};
ghost use Rattle.si_finder.specs.Loops.Turns.{TurnsAt};
ghost use Rattle.si_finder.specs.Loops.Turns as turns;

use crate::places::Places;
use si_base::ids::{Code, Sig, StateId};
use si_netlist::netlist::Netlist;
use si_reached::state::Reached;

/// A state, and the direction in which the next signal is about to switch over it.
#[derive(Clone, Copy, Debug)]
pub(crate) struct Turn {
    pub(crate) state: StateId,
    pub(crate) up: bool,
}

/// What the state of the circuit shows of the signals before `z`.
fn seen(z: Sig, x: &Reached) -> Reached
    requires { z < max_signals }
    ensures { result ≡ turns.seen z x.now }
{
    Reached {
        state: x.state,
        values: Code(x.values.0 & Code::ones(z.0 as usize).0),
    }
}

/// Over which state signal `z` is about to switch in that state of the circuit, and how.
pub(crate) fn turn_at(places: &Places, netlist: &Netlist, z: Sig, x: &Reached) -> Option<Turn>
    requires few { z < max_signals }
    requires gate { IsNonInput netlist.now.signals z }
    ensures { MatchOption result
        ((s : ℕ) (up : Bool) → TurnsAt netlist.now places.now z x.now s up → ⊥)
        (λ t. TurnsAt netlist.now places.now z x.now t.state t.up) }
{
    let up = netlist.gate_value(z, x.values);
    if up == x.values.get(z) {
        return None;
    }
    match places.place(&seen(z, x)) {
        Some(state) => Some(Turn { state, up }),
        None => None,
    }
}
