//! The first of the walks from a state to a target.

ghost use Rattle.std.specs.Prelude.{◌≡◌, ◌<◌, ◌↔◌, IfOk, IsTrue, MatchOption, length};
ghost use Rattle.si_base.specs.Codes.{IsDeterministic};
ghost use Rattle.si_base.specs.declared.graph.Edge.{Edge};
ghost use Rattle.si_walks.specs.Walks.{LeadsAlong, IsFirstWalk};
ghost use Rattle.si_walks.specs.Distances.{AreDistances, BringsNearer, IsNearer, IsFirstNearer};

use crate::arcs::{Arcs, takes};
use crate::distances::distances;
use si_base::graph::Edge;
use si_base::ids::{Event, NoMemory, StateId};
use si_graph::coded::Coded;
use si_graph::graph::Graph;
use std::alloc::Global;

/// The first walk along arcs of that kind from one state to another: no walk is shorter, and of
/// the shortest it is the least in event order. It fails only where memory runs out.
pub fn shortest_walk(
    alloc: Global,
    coded: &Coded,
    arcs: &Arcs,
    from: StateId,
    target: StateId,
) -> Result<Vec<Event>, NoMemory>
    requires from { from < coded.now.graph.states }
    requires target { target < coded.now.graph.states }
    requires leads { LeadsAlong coded.now.graph arcs.now from target }
    ensures { IfOk result (λ es. IsFirstWalk coded.now.graph arcs.now from target es.items) }
{
    let distances = distances(alloc, coded.graph(), arcs, target)?;
    walk_by(alloc, coded, arcs, from, target, distances.as_slice())
}

/// The first walk along arcs of that kind from a state to the target, by the distances of all
/// states to it.
pub(crate) fn walk_by(
    alloc: Global,
    coded: &Coded,
    arcs: &Arcs,
    from: StateId,
    target: StateId,
    distances: &[Option<u32>],
) -> Result<Vec<Event>, NoMemory>
    requires from { from < coded.now.graph.states }
    requires distances { AreDistances coded.now.graph arcs.now target distances.now }
    requires leads { LeadsAlong coded.now.graph arcs.now from target }
    ensures { IfOk result (λ es. IsFirstWalk coded.now.graph arcs.now from target es.items) }
{
    let graph = coded.graph();
    let mut walk = Vec::new(alloc);
    let mut at = from;
    while let Some(arc) = first_nearer(graph, arcs, distances, at) {
        walk.push(arc.event)?;
        at = arc.to;
    }
    Ok(walk)
}

/// The first arc of that kind out of a state that brings one nearer by one; `None` where there is
/// none.
fn first_nearer(graph: &Graph, arcs: &Arcs, distances: &[Option<u32>], s: StateId) -> Option<Edge>
    requires deterministic { IsDeterministic graph.now }
    requires state { s < graph.now.states }
    requires distances { length distances.now ≡ graph.now.states }
    ensures { MatchOption result
        ((a : Edge) → IsNearer graph.now arcs.now distances.now s a → ⊥)
        (λ a. IsFirstNearer graph.now arcs.now distances.now s a) }
{
    let out = graph.arcs_out(s);
    for arc in out {
        if takes(graph, arcs, arc.event) && brings_nearer(distances, s, arc.to) {
            return Some(*arc);
        }
    }
    None
}

/// Whether one arc less leads to the target from `t` than from `s`.
fn brings_nearer(distances: &[Option<u32>], s: StateId, t: StateId) -> bool
    requires s { s < length distances.now }
    requires t { t < length distances.now }
    ensures { IsTrue result ↔ BringsNearer distances.now s t }
{
    match (distances[s.0 as usize], distances[t.0 as usize]) {
        (Some(here), Some(there)) => here > 0 && here - 1 == there,
        _ => false,
    }
}
