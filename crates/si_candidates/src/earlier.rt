//! The earlier steps of an arc: those of its event before other events led to its source.

ghost use Rattle.std.specs.Prelude.{OnOk, Contains};
ghost use Rattle.si_base.specs.Graph.{IsGraph};
ghost use Rattle.si_base.specs.Codes.{IsDeterministic};
ghost use Rattle.si_candidates.specs.Loops.Earlier.{IsEarlier, IsEarlierBy, Adds};

use si_base::graph::Edge;
use si_base::ids::{NoMemory, StateId};
use si_graph::graph::Graph;

/// A step of the event of an arc from a state from which another event leads to the arc's source.
#[derive(Clone, Copy)]
pub struct EarlierStep {
    pub from: StateId,
    pub to: StateId,
}

/// Puts the earlier steps of the exit last: none if its event is an input's. It fails only where
/// memory runs out.
pub(crate) fn add_steps(
    graph: &Graph,
    exit: &Edge,
    steps: &mut Vec<EarlierStep>,
) -> Result<(), NoMemory>
    requires graph { IsGraph graph.now }
    requires deterministic { IsDeterministic graph.now }
    requires there { Contains graph.now.edges exit.now }
    ensures { OnOk result (Adds (IsEarlier graph.now exit.now) steps.old.items steps.new.items) }
{
    if !graph.is_driven(exit.event.sig) {
        return Ok(());
    }
    let mut at = graph.first_in(exit.from);
    while let Some(k) = at {
        add_step(graph, exit, &graph.edge(k), steps)?;
        at = graph.next_in(k);
    }
    Ok(())
}

/// Puts last the step that the event of the exit makes where `before` begins, if it is enabled
/// there and isn't the event of `before`. It fails only where memory runs out.
fn add_step(
    graph: &Graph,
    exit: &Edge,
    before: &Edge,
    steps: &mut Vec<EarlierStep>,
) -> Result<(), NoMemory>
    requires { IsDeterministic graph.now }
    ensures { OnOk result (Adds (IsEarlierBy graph.now exit.now before.now) steps.old.items
        steps.new.items) }
{
    if before.event == exit.event {
        return Ok(());
    }
    if let Some(to) = graph.succ(before.from, exit.event) {
        steps.push(EarlierStep {
            from: before.from,
            to,
        })?;
    }
    Ok(())
}
