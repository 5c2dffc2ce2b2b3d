//! Why no lineage fits a netlist, by the names of signals and the words of states and events.

ghost use Rattle.std.specs.Prelude.{◌≡◌, ◌+◌, ◌/◌, ◌^◌, ◌<◌, ◌≤◌, IfOk, length};
ghost use Rattle.si_audit.specs.Faults.{refused_word};
ghost use Rattle.si_audit.specs.Loops.FaultSignals.{AreAmong};
ghost use Rattle.si_audit.specs.Loops.Within.{IsWithin};
ghost use Rattle.si_audit.specs.declared.fault.AuditFault.TheVariants.{Refused};
ghost use Rattle.si_base.specs.Limits.{max_signals};
ghost use Rattle.si_certify.specs.Certify as spec;
ghost use Rattle.si_certify.specs.Certify.{TellsDifference, TellsNotFound, TellsObstacle};
ghost use Rattle.si_certify.specs.Loops.There.{DifferenceIsThere, IsThere, ObstacleIsThere};
ghost use Rattle.si_stages.specs.Audited.{IsNamedSo};

use si_audit::insertion::refusal;
use si_base::graph::Signal;
use si_base::ids::{Code, NoMemory};
use si_base::names::Names;
use si_base::text::Name;
use si_circuit::spelling::{Descent, current_state_word, state_word};
use si_finder::not_found::{Difference, NotFound, Obstacle};
use si_insert::accept::Rejected;
use si_insert::lineage::Lineage;
use si_reached::state::Reached;
use si_refusals::breach::name_of_signal;
use si_refusals::rejection::NamedRejection;
use si_stages::audited::reason_of as audit_reason;
use std::alloc::Global;

/// Why no lineage fits a netlist of these signals, of which so many are the graph's. It fails only
/// where memory runs out.
pub(crate) fn reason_of(
    alloc: Global,
    states: &Names,
    given: usize,
    signals: &[Signal],
    why: &NotFound,
) -> Result<NamedRejection, NoMemory>
    requires few { length signals.now ≤ max_signals }
    requires there { IsThere (length states.now) given signals.now why.now }
    ensures { IfOk result (TellsNotFound states.now given signals.now why.now) }
{
    match why {
        NotFound::NoMemory => Err(NoMemory),
        NotFound::TooMany => Ok(NamedRejection::TooMany),
        NotFound::Astray { at, sig } => Ok(NamedRejection::Astray {
            signal: name_of_signal(alloc, signals, *sig)?,
            state: reached_word(alloc, states, given, signals, at)?,
        }),
        NotFound::Hindered { lineage, why } => {
            obstacle_reason(alloc, states, signals, lineage, why)
        }
        NotFound::Unbuilt { lineage, why } => {
            difference_reason(alloc, states, signals, lineage, why)
        }
    }
}

/// The word of a state that the circuit reaches.
fn reached_word(
    alloc: Global,
    states: &Names,
    given: usize,
    signals: &[Signal],
    at: &Reached,
) -> Result<Name, NoMemory>
    requires state { at.now.state < length states.now }
    requires given { given ≤ length signals.now }
    requires few { length signals.now ≤ max_signals }
    ensures { IfOk result (λ word. word ≡ spec.reached_word states.now given signals.now at.now) }
{
    let hidden = signals.len() - given;
    let bits = hidden_values(given, hidden, at.values);
    let descent = Descent {
        origin: at.state,
        bits,
    };
    let word = state_word(alloc, states, hidden, descent)?;
    Name::copy_of(alloc, word.as_slice())
}

/// The values of so many hidden signals behind given ones.
fn hidden_values(given: usize, hidden: usize, values: Code) -> Code
    requires { given + hidden ≤ max_signals }
    ensures { 0 < hidden → result ≡ values / 2 ^ given }
{
    if hidden == 0 {
        return Code(0);
    }
    Code(values.0 >> given)
}

/// The number of the insertion that is next after those of the lineage.
fn turn(lineage: &Lineage) -> u32
    ensures { result ≡ spec.turn lineage.now }
{
    lineage.trace().len() as u32 + 1
}

/// Why the next signal isn't inserted into the lineage.
fn obstacle_reason(
    alloc: Global,
    states: &Names,
    signals: &[Signal],
    lineage: &Lineage,
    why: &Obstacle,
) -> Result<NamedRejection, NoMemory>
    requires count { length states.now ≡ lineage.now.given.graph.states }
    requires there { ObstacleIsThere signals.now lineage.now why.now }
    ensures { IfOk result (TellsObstacle states.now signals.now lineage.now why.now) }
{
    let k = turn(lineage);
    match why {
        Obstacle::NeverUp => Ok(NamedRejection::NeverUp { k }),
        Obstacle::NeverDown => Ok(NamedRejection::NeverDown { k }),
        Obstacle::Both { s } => Ok(NamedRejection::Both {
            k,
            state: current_state_word(alloc, lineage, states, *s)?,
        }),
        Obstacle::Classes { .. } => Ok(NamedRejection::Classes { k }),
        Obstacle::Refused { why } => refused_reason(alloc, states, signals, lineage, why),
    }
}

/// Why the partition of the next signal isn't accepted.
fn refused_reason(
    alloc: Global,
    states: &Names,
    signals: &[Signal],
    lineage: &Lineage,
    why: &Rejected,
) -> Result<NamedRejection, NoMemory>
    requires count { length states.now ≡ lineage.now.given.graph.states }
    requires within { IsWithin lineage.now.current.coded.graph why.now }
    requires among { AreAmong signals.now why.now }
    ensures { IfOk result (IsNamedSo signals.now (Refused (spec.turn lineage.now)
        (refused_word states.now lineage.now why.now) why.now)) }
{
    let fault = refusal(alloc, lineage, states, turn(lineage), why);
    audit_reason(alloc, signals, fault)
}

/// How the netlist differs from the lineage's current graph.
fn difference_reason(
    alloc: Global,
    states: &Names,
    signals: &[Signal],
    lineage: &Lineage,
    why: &Difference,
) -> Result<NamedRejection, NoMemory>
    requires count { length states.now ≡ lineage.now.given.graph.states }
    requires there { DifferenceIsThere lineage.now why.now }
    ensures { IfOk result (TellsDifference states.now signals.now lineage.now why.now) }
{
    match why {
        Difference::Start { sig } => Ok(NamedRejection::Start {
            signal: name_of_signal(alloc, signals, *sig)?,
        }),
        Difference::Gate { sig, state } => Ok(NamedRejection::Gate {
            signal: name_of_signal(alloc, signals, *sig)?,
            state: current_state_word(alloc, lineage, states, *state)?,
        }),
    }
}
