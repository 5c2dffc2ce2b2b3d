//! Whether a graph is deterministic: one event from one state leads to one state.

ghost use Rattle.std.specs.Prelude.{MatchOption};
ghost use Rattle.si_base.specs.Codes.{IsDeterministic};
ghost use Rattle.si_base.specs.Order.{IsFirst};
ghost use Rattle.si_base.specs.Proper.{Splits, split_place};

use crate::graph::Graph;
use si_base::graph::Edge;

/// The first two arcs of one source and one event; `None` exactly where the graph is deterministic.
///
/// Arcs are ordered by source, event and target, so the first such arcs are neighbours.
pub fn first_split(graph: &Graph) -> Option<(Edge, Edge)>
    ensures { MatchOption result (IsDeterministic graph.now)
        (λ arcs. IsFirst split_place (Splits graph.now)
        (record { s = arcs.0.from; e = arcs.0.event; t = arcs.0.to; u = arcs.1.to })) }
{
    let arcs = graph.arcs();
    for k in 1..arcs.len() {
        let one = arcs[k - 1];
        let other = arcs[k];
        if one.from == other.from && one.event == other.event {
            return Some((one, other));
        }
    }
    None
}
