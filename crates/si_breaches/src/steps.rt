//! The events that a state enables, and where one or two of them lead.

ghost use Rattle.std.specs.Prelude.{◌≡◌, ◌↔◌, ◌+◌, ◌^◌, ◌<◌, IfOk, IfSome, IsTrue};
ghost use Rattle.si_base.specs.Proper.{pair_place};
ghost use Rattle.si_base.specs.System.{IsLeastTarget};
ghost use Rattle.si_checks.specs.Loops.Searches.{IsFirstOrNone};
ghost use Rattle.si_breaches.specs.Loops.Steps.{AreEnabled, AreEndsApart, IsArcBy, IsEndBehind};
ghost use Rattle.si_breaches.specs.Loops.Steps.{IsTargetFrom, is_before_those, lesser_of};
ghost use Rattle.si_told.specs.All.{AreAll, arc_place, number_place};

use si_base::graph::Edge;
use si_base::ids::{Event, NoMemory, StateId};
use si_graph::graph::Graph;
use std::alloc::Global;

/// The events that a state enables, each once, in event order. It fails only where memory runs out.
pub(crate) fn events_at(alloc: Global, graph: &Graph, s: StateId) -> Result<Vec<Event>, NoMemory>
    ensures { IfOk result (λ events. AreEnabled graph.now s events.items) }
{
    let arcs = graph.arcs_out(s);
    let mut events: Vec<Event> = Vec::new(alloc);
    for x in arcs {
        if is_first(graph, s, x) {
            events.push(x.event)?;
        }
    }
    Ok(events)
}

/// Whether no arc out of the state by the same event leads to an earlier state, and it is one.
fn is_first(graph: &Graph, s: StateId, x: &Edge) -> bool
    ensures { IsTrue result ↔ IsLeastTarget graph.now s x.now.event x.now.to }
{
    match graph.succ(s, x.event) {
        Some(t) => t == x.to,
        None => false,
    }
}

/// The arcs out of a state by an event, in the order of their targets.
pub(crate) fn arcs_by(graph: &Graph, s: StateId, e: Event) -> &[Edge]
    ensures { AreAll arc_place (IsArcBy graph.now s e) result.now }
{
    let arcs = graph.arcs_out(s);
    let low = arcs.partition_point(|x| x.event < e);
    let (_, rest) = arcs.split_at(low);
    let count = rest.partition_point(|x| x.event <= e);
    let (part, _) = rest.split_at(count);
    part
}

/// The first two states to which the two orders of two events lead, where these are different.
pub(crate) fn ends_apart(
    graph: &Graph,
    s: StateId,
    a: &Event,
    c: &Event,
) -> Option<(StateId, StateId)>
    ensures { IsFirstOrNone pair_place (AreEndsApart graph.now s a.now c.now) result }
{
    let _arcs = graph.arcs();
    let by_a = arcs_by(graph, s, *a);
    let by_c = arcs_by(graph, s, *c);
    let w = end_behind(graph, by_a, c, StateId(0))?;
    let w2 = end_behind(graph, by_c, a, StateId(0))?;
    if w != w2 {
        return Some((w, w2));
    }
    let next = next_to(w);
    if let Some(other) = end_behind(graph, by_c, a, next) {
        return Some((w, other));
    }
    let other = end_behind(graph, by_a, c, next)?;
    Some((other, w))
}

/// The next state.
fn next_to(s: StateId) -> StateId
    requires { s + 1 < 2 ^ 32 }
    ensures { result ≡ s + 1 }
{
    StateId(s.0 + 1)
}

/// The first state from `low` on to which an event leads from the targets of arcs.
fn end_behind(graph: &Graph, arcs: &[Edge], e: &Event, low: StateId) -> Option<StateId>
    ensures within { IfSome result (λ w. w < graph.now.states) }
    ensures first { IsFirstOrNone number_place (IsEndBehind graph.now arcs.now e.now low) result }
{
    let _arcs = graph.arcs();
    let mut least = None;
    for x in arcs {
        least = lesser(least, target_from(graph, x.to, e, low));
    }
    least
}

/// The lesser of those that are there.
fn lesser(p: Option<StateId>, q: Option<StateId>) -> Option<StateId>
    ensures { result ≡ lesser_of p q }
{
    match p {
        None => q,
        Some(m) => match q {
            None => p,
            Some(n) => Some(if n < m { n } else { m }),
        },
    }
}

/// The first state from `low` on to which an event leads.
fn target_from(graph: &Graph, s: StateId, e: &Event, low: StateId) -> Option<StateId>
    ensures { IsFirstOrNone number_place (IsTargetFrom graph.now s e.now low) result }
{
    let arcs = graph.arcs_out(s);
    let place = arcs.partition_point(|x| is_before(x, e, low));
    if place < arcs.len() && arcs[place].event == *e {
        Some(arcs[place].to)
    } else {
        None
    }
}

/// Whether the arc comes before those by the event to the states from `low` on.
fn is_before(x: &Edge, e: &Event, low: StateId) -> bool
    ensures { result ≡ is_before_those e.now low x.now }
{
    x.event < *e || (x.event == *e && x.to < low)
}
