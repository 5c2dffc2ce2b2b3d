//! The first breach of commutativity, or else of output persistency.

ghost use Rattle.std.specs.Prelude.{◌+◌};
ghost use Rattle.si_base.specs.Codes.{IsDeterministic};
ghost use Rattle.si_base.specs.Graph.{IsGraph};
ghost use Rattle.si_base.specs.Proper.{loss_place};
ghost use Rattle.si_checks.specs.Loops.Searches.{IsFirstBreach, IsFirstOrNone, LosesBelow};

use crate::forks::{Fork, first_fork_at};
use crate::losses::{Loss, first_loss_at};
use crate::squares::close_squares;
use si_base::ids::StateId;
use si_graph::graph::Graph;

/// A breach of commutativity or of output persistency.
#[derive(Clone, Copy)]
pub enum Breach {
    Fork(Fork),
    Loss(Loss),
}

/// The first fork of a deterministic graph, or where it has none its first loss, if it has any.
///
/// Where the arcs out of a state close squares there is neither, and nothing more is looked at.
pub fn first_breach(graph: &Graph) -> Option<Breach>
    requires graph { IsGraph graph.now }
    requires deterministic { IsDeterministic graph.now }
    ensures { IsFirstBreach graph.now result }
{
    let mut loss = None;
    for k in 0..graph.states() {
        let s = StateId(k);
        if close_squares(graph, s) {
            continue;
        }
        if let Some(fork) = first_fork_at(graph, s) {
            return Some(Breach::Fork(fork));
        }
        loss = loss_up_to(graph, s, loss);
    }
    match loss {
        Some(loss) => Some(Breach::Loss(loss)),
        None => None,
    }
}

/// The loss that was found at an earlier state, or else the first one at the state.
fn loss_up_to(graph: &Graph, s: StateId, found: Option<Loss>) -> Option<Loss>
    requires deterministic { IsDeterministic graph.now }
    requires found { IsFirstOrNone loss_place (LosesBelow graph.now s) found }
    ensures { IsFirstOrNone loss_place (LosesBelow graph.now (s + 1)) result }
{
    match found {
        Some(loss) => Some(loss),
        None => first_loss_at(graph, s),
    }
}
