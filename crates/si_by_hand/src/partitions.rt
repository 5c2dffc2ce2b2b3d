//! The partition for the gate of a new signal, or the reason why there is none.

ghost use Rattle.std.specs.Prelude.{◌≡◌, ◌<◌, ◌++◌, ◌∷◌, [], length, IfOk, IfErr, Ok};
ghost use Rattle.si_audit.specs.Loops.FaultSignals.{AreAmong};
ghost use Rattle.si_base.specs.Limits.{max_signals};
ghost use Rattle.si_divisor.specs.PartitionFor.{IsPartitionFor, ShowsNone};
ghost use Rattle.si_insert.specs.Insertion.{new_signal};
ghost use Rattle.si_insert.specs.Partition.{IsLawful};
ghost use Rattle.si_netlist.specs.Loops.Parts.{gate_seen};
ghost use Rattle.si_refusals.specs.Ending.{MayStop, ending_of};
ghost use Rattle.si_sg.specs.CanonicalText.{event_word as word_of_event};
ghost use Rattle.si_by_hand.specs.Forcing.{forced_at};
ghost use Rattle.si_by_hand.specs.Loops.NoneTold.{IsRejectedWithin, IsWithinStates};
ghost use Rattle.si_by_hand.specs.Partitions as stage;
ghost use Rattle.si_by_hand.specs.Partitions.{IsNoneNamed, IsRefusedSo};
ghost use Rattle.si_by_hand.specs.Loops.Handed.{new_gate_now};

use crate::forcing::forced_states;
use crate::gate_text::NewGate;
use si_base::graph::Signal;
use si_base::ids::{Event, NoMemory, Sig};
use si_base::names::Names;
use si_base::text::{Name, Text};
use si_checks::proper::Proper;
use si_divisor::fault::NoPartition;
use si_divisor::partition_for::partition_where;
use si_insert::accept::{Accepted, Rejected, accept};
use si_insert::partition::Partition;
use si_netlist::gate::Gate;
use si_refusals::breach::{event_word, state_name};
use si_refusals::refusals::Refusal;
use si_refusals::rejection::NamedRejection;
use si_sg::write::sign;
use std::alloc::Global;

/// The number of the only insertion.
const ONLY: u32 = 1;

/// The accepted partition for the gate of the new signal, where the states have these names, or
/// why there is none.
pub(crate) fn accepted_for(
    alloc: Global,
    graph: &Proper,
    states: &Names,
    made: &NewGate,
) -> Result<Accepted, Refusal<'static>>
    requires names { length states.now ≡ graph.now.graph.states }
    requires room { length graph.now.graph.signals < max_signals }
    ensures ok { IfOk result (λ classes. stage.partition_for states.now graph.now
        (new_gate_now made.now) (Ok classes)) }
    ensures err { IfErr result (λ r. MayStop (stage.partition_for states.now graph.now
        (new_gate_now made.now)) (ending_of r)) }
{
    let partition = match partition_by(alloc, graph, &made.gate) {
        Ok(partition) => partition,
        Err(why) => {
            let reason = none_named(alloc, states, why)?;
            return Err(Refusal::Rejected { reason });
        }
    };
    match accept(graph, partition) {
        Ok(accepted) => Ok(accepted),
        Err((_partition, why)) => {
            let signals = graph.coded().graph().signals();
            let reason = refused_so(alloc, states, signals, &made.name, &why)?;
            Err(Refusal::Rejected { reason })
        }
    }
}

/// The partition for the gate of a new signal, or the first reason why there is none.
fn partition_by(alloc: Global, graph: &Proper, gate: &Gate) -> Result<Partition, NoPartition>
    requires { length graph.now.graph.signals < max_signals }
    ensures partition { IfOk result
        (IsPartitionFor graph.now.graph (forced_at (gate_seen gate.now) graph.now)) }
    ensures lawful { IfOk result (IsLawful graph.now.graph) }
    ensures fault { IfErr result
        (ShowsNone graph.now.graph (forced_at (gate_seen gate.now) graph.now)) }
{
    let coded = graph.coded();
    let z = Sig(coded.graph().signals().len() as u8);
    let up = forced_states(alloc, coded, gate, z, true)?;
    let down = forced_states(alloc, coded, gate, z, false)?;
    partition_where(alloc, graph, &up, &down)
}

/// Why there is no partition, by the names of states.
fn none_named(alloc: Global, states: &Names, why: NoPartition) -> Result<NamedRejection, NoMemory>
    requires { IsWithinStates (length states.now) why }
    ensures { IfOk result (IsNoneNamed states.now why) }
{
    match why {
        NoPartition::NoMemory => Err(NoMemory),
        NoPartition::Unforced { s } => Ok(NamedRejection::Unforced {
            state: state_name(alloc, states, s)?,
        }),
        NoPartition::Contradiction { s } => Ok(NamedRejection::Contrary {
            state: state_name(alloc, states, s)?,
        }),
        NoPartition::LeavesForced { s } => Ok(NamedRejection::Leaves {
            state: state_name(alloc, states, s)?,
        }),
        NoPartition::Constant => Ok(NamedRejection::Constant),
    }
}

/// Why a partition isn't accepted, by the names of states and the words of events of these signals
/// and the new one.
fn refused_so(
    alloc: Global,
    states: &Names,
    signals: &[Signal],
    new: &Name,
    why: &Rejected,
) -> Result<NamedRejection, NoMemory>
    requires within { IsRejectedWithin (length states.now) why.now }
    requires among { AreAmong (signals.now ++ new_signal new.now ∷ []) why.now }
    ensures { IfOk result
        (IsRefusedSo states.now (signals.now ++ new_signal new.now ∷ []) why.now) }
{
    match why {
        Rejected::DelaysInput { s, e } => Ok(NamedRejection::Delays {
            k: ONLY,
            state: state_name(alloc, states, *s)?,
            event: event_beside(alloc, signals, new, *e)?,
        }),
        Rejected::BreaksPersistency { s, lost, by } => Ok(NamedRejection::Breaks {
            k: ONLY,
            state: state_name(alloc, states, *s)?,
            lost: event_beside(alloc, signals, new, *lost)?,
            by: event_beside(alloc, signals, new, *by)?,
        }),
        Rejected::TooLarge { states } => Ok(NamedRejection::TooLarge {
            k: ONLY,
            states: *states,
        }),
        // This comes never: there is room for the new signal.
        Rejected::NoCodeBit => Err(NoMemory),
    }
}

/// The word of an event of the signals or of the new one behind them.
fn event_beside(
    alloc: Global,
    signals: &[Signal],
    new: &Name,
    event: Event,
) -> Result<Text, NoMemory>
    requires { event.sig < length (signals.now ++ new_signal new.now ∷ []) }
    ensures { IfOk result
        (λ word. word ≡ word_of_event (signals.now ++ new_signal new.now ∷ []) event) }
{
    if (event.sig.0 as usize) < signals.len() {
        return event_word(alloc, signals, event);
    }
    let mut word = Text::copy_of(alloc, new.bytes())?;
    word.add(sign(event.up))?;
    Ok(word)
}
