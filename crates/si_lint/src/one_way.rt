//! The arcs after which the start can't be reached any more.

ghost use Rattle.std.specs.Prelude.{◌≡◌, ◌↔◌, ◌<◌, IfOk, IsTrue, length};
ghost use Rattle.si_carried.specs.Always.{Leads};
ghost use Rattle.si_carried.specs.Lint.{IsOneWay};
ghost use Rattle.si_told.specs.All.{AreAll, arc_place};
ghost use Rattle.si_lint.specs.Loops.Search.{IsLost};
ghost use Rattle.si_walks.specs.Distances.{AreDistances, at};
ghost use Rattle.si_walks.specs.declared.arcs.Arcs.TheVariants.{All};

use si_base::graph::Edge;
use si_base::ids::{NoMemory, StateId};
use si_graph::graph::Graph;
use si_walks::arcs::Arcs;
use si_walks::distances::distances;
use std::alloc::Global;

/// The arcs after which the start can't be reached any more, and before which it can, in arc order.
/// It fails only where memory runs out.
pub(crate) fn one_way(alloc: Global, graph: &Graph) -> Result<Vec<Edge>, NoMemory>
    ensures { IfOk result (λ found. AreAll arc_place (IsOneWay graph.now) found.items) }
{
    let arcs = graph.arcs();
    let back = distances(alloc, graph, &Arcs::All, graph.start())?;
    let mut found: Vec<Edge> = Vec::new(alloc);
    for arc in arcs {
        if is_lost(graph, &back, arc) {
            found.push(*arc)?;
        }
    }
    Ok(found)
}

/// Whether the start can be reached before the arc, and not after it.
fn is_lost(graph: &Graph, back: &[Option<u32>], arc: &Edge) -> bool
    requires from { arc.now.from < graph.now.states }
    requires to { arc.now.to < graph.now.states }
    requires distances { AreDistances graph.now All graph.now.start back.now }
    ensures { IsTrue result ↔ IsLost graph.now arc.now }
{
    if !leads(graph, back, arc.from) {
        return false;
    }
    !leads(graph, back, arc.to)
}

/// Whether the start can be reached from a state, by the distances to it.
fn leads(graph: &Graph, back: &[Option<u32>], s: StateId) -> bool
    requires state { s < graph.now.states }
    requires distances { AreDistances graph.now All graph.now.start back.now }
    ensures { IsTrue result ↔ Leads graph.now s graph.now.start }
{
    distance(back, s).is_some()
}

/// The distance of a state.
fn distance(distances: &[Option<u32>], s: StateId) -> Option<u32>
    requires { s < length distances.now }
    ensures { result ≡ at distances.now s }
{
    distances[s.0 as usize]
}
