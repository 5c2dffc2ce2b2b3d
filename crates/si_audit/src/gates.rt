//! Gates beside the next values of a graph.

ghost use Rattle.std.specs.Prelude.{◌≡◌, ◌<◌, IfOk, MatchOption, length};
ghost use Rattle.si_base.specs.Codes.{code, next_value};
ghost use Rattle.si_base.specs.Graph.{IsNonInput};
ghost use Rattle.si_base.specs.Netlist.{gate_value};
ghost use Rattle.si_base.specs.Order.{IsFirst};
ghost use Rattle.si_base.specs.RightGates.{GivesNextValues};
ghost use Rattle.si_base.specs.Sets.{flag};
ghost use Rattle.si_audit.specs.Loops.Columns.{Agree, AreColumnsOf, DifferFirstAt, words_for};
ghost use Rattle.si_audit.specs.Faults.{IsWrong, spot_place};

use crate::column::Column;
use crate::values::{columns_of, gate_column};
use si_base::ids::{NoMemory, Sig, StateId};
use si_graph::coded::Coded;
use si_netlist::netlist::Netlist;
use std::alloc::Global;

/// A signal and a state.
#[derive(Clone, Copy)]
pub(crate) struct Spot {
    pub(crate) sig: Sig,
    pub(crate) state: StateId,
}

/// The first signal, and for it the first state, at which the gate hasn't the next value. It fails
/// only where memory runs out.
pub(crate) fn first_wrong(
    alloc: Global,
    coded: &Coded,
    netlist: &Netlist,
) -> Result<Option<Spot>, NoMemory>
    requires { netlist.now.signals ≡ coded.now.graph.signals }
    ensures { IfOk result (λ found. MatchOption found (GivesNextValues coded.now netlist.now)
        (λ x. IsFirst spot_place (IsWrong coded.now netlist.now)
        (record { sig = x.sig; state = x.state }))) }
{
    let graph = coded.graph();
    let columns = columns_of(alloc, coded)?;
    for z in 0..graph.signals().len() {
        let sig = Sig(z as u8);
        if !graph.is_driven(sig) {
            continue;
        }
        if let Some(state) = first_wrong_state(alloc, coded, columns.as_slice(), netlist, sig)? {
            return Ok(Some(Spot { sig, state }));
        }
    }
    Ok(None)
}

/// The first state at which the gate of the signal hasn't the next value.
fn first_wrong_state(
    alloc: Global,
    coded: &Coded,
    columns: &[Column],
    netlist: &Netlist,
    z: Sig,
) -> Result<Option<StateId>, NoMemory>
    requires columns { AreColumnsOf coded.now columns.now }
    requires signals { netlist.now.signals ≡ coded.now.graph.signals }
    requires gate { IsNonInput netlist.now.signals z }
    ensures { IfOk result (λ found. MatchOption found
        (Agree coded.now.graph.states (λ s. gate_value netlist.now z (code coded.now s))
        (λ s. next_value coded.now s z))
        (DifferFirstAt coded.now.graph.states (λ s. gate_value netlist.now z (code coded.now s))
        (λ s. next_value coded.now s z))) }
{
    let states = coded.graph().states();
    let values = gate_column(alloc, states, columns, netlist.gate_of(z), z)?;
    Ok(first_other(coded, z, &values))
}

/// The first state at which the column hasn't the next value of the signal.
fn first_other(coded: &Coded, z: Sig, values: &Column) -> Option<StateId>
    requires signal { z < length coded.now.graph.signals }
    requires size { length values.now ≡ words_for coded.now.graph.states }
    ensures { MatchOption result
        (Agree coded.now.graph.states (flag values.now) (λ s. next_value coded.now s z))
        (DifferFirstAt coded.now.graph.states (flag values.now) (λ s. next_value coded.now s z)) }
{
    for s in 0..coded.graph().states() {
        let state = StateId(s);
        if values.get(state) != coded.next_value(state, z) {
            return Some(state);
        }
    }
    None
}
