//! Replaying a schedule.

ghost use Rattle.std.specs.Prelude.{◌<◌, All, IfOk, IsSome, MatchResult, length};
ghost use Rattle.si_base.specs.System.{IsFor, start};
ghost use Rattle.si_system.specs.Lists.{ShowsDifference};
ghost use Rattle.si_system.specs.Outcome.{IsOutcome};

use crate::system::{ListsDiffer, System};
use crate::verdict::Verdict;
use si_base::ids::{Code, Event, StateId};
use si_graph::coded::Coded;
use si_netlist::netlist::Netlist;

/// How a replay ends.
#[derive(Clone, Copy, PartialEq, Eq, Debug)]
pub enum Outcome {
    /// Each step was taken; the system ended with these values at this state.
    Done {
        values: Code,
        state: StateId,
    },
    /// The first event whose verdict isn't `Done`.
    Differs {
        /// Counted from 1.
        step: u64,
        event: Event,
        verdict: Verdict,
    },
}

/// Fires the events of the schedule one after another, from the start on, up to the first whose
/// verdict isn't `Done`.
///
/// # Errors
///
/// `ListsDiffer` as `System::start`.
pub fn replay(
    graph: &Coded,
    netlist: &Netlist,
    schedule: &Vec<Event>,
) -> Result<Outcome, ListsDiffer>
    requires { All (λ e. e.sig < length netlist.now.signals) schedule.now.items }
    ensures same { MatchResult result (λ _. IsFor graph.now netlist.now)
        (λ e. ShowsDifference graph.now netlist.now e.place) }
    ensures outcome { IfOk result (λ outcome. IsOutcome graph.now.graph netlist.now
        (start graph.now.graph netlist.now) schedule.now.items outcome) }
{
    let mut system = System::start(graph, netlist)?;
    Ok(outcome_of(&mut system, schedule))
}

/// The outcome of the schedule, from where the system stands.
fn outcome_of(system: &mut System<'_>, schedule: &Vec<Event>) -> Outcome
    requires events { All (λ e. e.sig < length system.old.netlist.signals) schedule.now.items }
    requires state { IsSome system.old.state.place }
    ensures { IsOutcome system.old.coded.graph system.old.netlist system.old.state
        schedule.now.items result }
{
    for (k, event) in schedule.iter().enumerate() {
        let verdict = system.fire(*event);
        match verdict {
            Verdict::Done => {}
            _ => {
                return Outcome::Differs {
                    step: k as u64 + 1,
                    event: *event,
                    verdict,
                };
            }
        }
    }
    Outcome::Done {
        values: system.values(),
        state: system.state().unwrap(),
    }
}
