//! The start values and the gates of a netlist, beside the last graph of a lineage.

ghost use Rattle.std.specs.Prelude.{◌≡◌, ℕ, MatchOption};
ghost use Rattle.si_audit.specs.Faults.{IsWrong, StartsOtherwise, signal_place, spot_place};
ghost use Rattle.si_audit.specs.Loops.Columns.{Agree, DifferFirstAt};
ghost use Rattle.si_base.specs.Codes.{code, next_value};
ghost use Rattle.si_base.specs.Graph.{IsNonInput};
ghost use Rattle.si_base.specs.Netlist.{gate_value};
ghost use Rattle.si_base.specs.Order.{IsFirst};
ghost use Rattle.si_base.specs.RightGates.{GivesNextValues};
ghost use Rattle.si_base.specs.System.{IsFor};
ghost use Rattle.si_finder.specs.NotFound.{IsFirstDifference};
ghost use Rattle.si_insert.specs.Built.{IsBuilt};

use crate::not_found::Difference;
use si_base::ids::{Sig, StateId};
use si_graph::coded::Coded;
use si_insert::lineage::Lineage;
use si_netlist::netlist::Netlist;

/// A signal and a state.
#[derive(Clone, Copy, Debug)]
struct Spot {
    sig: Sig,
    state: StateId,
}

/// The first inserted signal whose start value isn't that of the current graph's start.
fn first_other_start(lineage: &Lineage, netlist: &Netlist) -> Option<Sig>
    requires { netlist.now.signals ≡ lineage.now.current.coded.graph.signals }
    ensures { MatchOption result
        ((z : ℕ) → StartsOtherwise lineage.now.given lineage.now.current netlist.now z → ⊥)
        (IsFirst signal_place
        (StartsOtherwise lineage.now.given lineage.now.current netlist.now)) }
{
    let given = lineage.given().coded().graph().signals().len();
    let current = lineage.current().coded();
    let code = current.code(current.graph().start());
    let start = netlist.start();
    for z in given..netlist.signals().len() {
        let sig = Sig(z as u8);
        if start.get(sig) != code.get(sig) {
            return Some(sig);
        }
    }
    None
}

/// The first state at which the gate of the signal hasn't the next value.
fn first_wrong_state(coded: &Coded, netlist: &Netlist, z: Sig) -> Option<StateId>
    requires signals { netlist.now.signals ≡ coded.now.graph.signals }
    requires gate { IsNonInput netlist.now.signals z }
    ensures { MatchOption result
        (Agree coded.now.graph.states (λ s. gate_value netlist.now z (code coded.now s))
        (λ s. next_value coded.now s z))
        (DifferFirstAt coded.now.graph.states (λ s. gate_value netlist.now z (code coded.now s))
        (λ s. next_value coded.now s z)) }
{
    for s in 0..coded.graph().states() {
        let state = StateId(s);
        if netlist.gate_value(z, coded.code(state)) != coded.next_value(state, z) {
            return Some(state);
        }
    }
    None
}

/// The first signal, and for it the first state, at which the gate hasn't the next value.
fn first_wrong(coded: &Coded, netlist: &Netlist) -> Option<Spot>
    requires { netlist.now.signals ≡ coded.now.graph.signals }
    ensures { MatchOption result (GivesNextValues coded.now netlist.now)
        (λ x. IsFirst spot_place (IsWrong coded.now netlist.now)
        (record { sig = x.sig; state = x.state })) }
{
    let graph = coded.graph();
    for z in 0..graph.signals().len() {
        let sig = Sig(z as u8);
        if !graph.is_driven(sig) {
            continue;
        }
        if let Some(state) = first_wrong_state(coded, netlist, sig) {
            return Some(Spot { sig, state });
        }
    }
    None
}

/// How the netlist differs from the current graph of the lineage, in the start values of inserted
/// signals, or else in its gates.
pub(crate) fn first_difference(lineage: &Lineage, netlist: &Netlist) -> Option<Difference>
    requires lists { IsFor lineage.now.given netlist.now }
    requires signals { netlist.now.signals ≡ lineage.now.current.coded.graph.signals }
    ensures { MatchOption result (IsBuilt lineage.now.current netlist.now)
        (IsFirstDifference lineage.now netlist.now) }
{
    // What holds of each netlist comes with its signals, and of each lineage with its graph.
    let _signals = netlist.signals();
    let current = lineage.current();
    if let Some(sig) = first_other_start(lineage, netlist) {
        return Some(Difference::Start { sig });
    }
    match first_wrong(current.coded(), netlist) {
        None => None,
        Some(spot) => Some(Difference::Gate {
            sig: spot.sig,
            state: spot.state,
        }),
    }
}
