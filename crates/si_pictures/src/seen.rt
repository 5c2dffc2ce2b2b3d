//! What was read of a graph: its codes where it has any, and its first breach where it isn't
//! proper.

ghost use Rattle.std.specs.Prelude.{◌≡◌};
ghost use Rattle.std.specs.List.{list_any};
ghost use Rattle.si_pictures.specs.Seen as spec;
ghost use Rattle.si_pictures.specs.Seen.{graph_of};

use si_base::graph::Edge;
use si_base::ids::{Event, Sig, StateId};
use si_checks::proper::Proper;
use si_graph::coded::Coded;
use si_graph::graph::Graph;

/// A breach of what makes a graph proper.
#[derive(Clone, Copy, PartialEq, Eq, Debug)]
pub enum Breach {
    /// The state `s` leads by `e` to both `t` and `u`.
    Nondeterministic {
        s: StateId,
        e: Event,
        t: StateId,
        u: StateId,
    },
    /// No values of the signal suit the arcs.
    Inconsistent {
        sig: Sig,
    },
    /// The state `s` leads by `a` and then `c` to another state than by `c` and then `a`.
    Noncommutative {
        s: StateId,
        a: Event,
        c: Event,
    },
    /// At `s` the event `by` disables the enabled non-input event `lost`.
    Nonpersistent {
        s: StateId,
        lost: Event,
        by: Event,
    },
}

/// What was read: a graph that is proper, or with its first breach.
#[derive(Drop)]
pub enum Seen {
    /// A proper graph.
    Proper(Proper),
    /// A graph that has codes and isn't proper.
    Coded(Coded, Breach),
    /// A graph that has no codes.
    Uncoded(Graph, Breach),
}

impl Seen {
    /// The graph.
    pub fn graph(&self) -> &Graph
        ensures { result.now ≡ graph_of self.now }
    {
        match self {
            Seen::Proper(proper) => proper.coded().graph(),
            Seen::Coded(coded, _) => coded.graph(),
            Seen::Uncoded(graph, _) => graph,
        }
    }

    /// Whether the arc shows the first breach.
    pub(crate) fn is_red_arc(&self, arc: &Edge) -> bool
        ensures { result ≡ spec.is_red_arc self.now arc.now }
    {
        match self {
            Seen::Proper(_) => false,
            Seen::Coded(coded, breach) => is_breach_arc(coded.graph(), breach, arc),
            Seen::Uncoded(graph, breach) => is_breach_arc(graph, breach, arc),
        }
    }
}

/// Whether the breach shows at the state.
pub(crate) fn is_breach_state(breach: &Breach, k: StateId) -> bool
    ensures { result ≡ spec.is_breach_state breach.now k }
{
    match *breach {
        Breach::Nondeterministic { s, .. } => k == s,
        Breach::Inconsistent { .. } => false,
        Breach::Noncommutative { s, .. } => k == s,
        Breach::Nonpersistent { s, .. } => k == s,
    }
}

/// Whether the arc is one of those that show the breach.
fn is_breach_arc(graph: &Graph, breach: &Breach, x: &Edge) -> bool
    ensures { result ≡ spec.is_breach_arc graph.now breach.now x.now }
{
    match *breach {
        Breach::Nondeterministic { s, e, t, u } => is_step(x, s, &e, t) || is_step(x, s, &e, u),
        Breach::Inconsistent { sig } => x.event.sig == sig,
        Breach::Noncommutative { s, a, c } => {
            is_on_way(graph, s, &a, &c, x) || is_on_way(graph, s, &c, &a, x)
        }
        Breach::Nonpersistent { s, lost, by } => {
            x.from == s && (x.event == lost || x.event == by)
        }
    }
}

/// Whether the arc leaves `s` by the one event, or by the other a state to which the one leads.
fn is_on_way(graph: &Graph, s: StateId, one: &Event, other: &Event, x: &Edge) -> bool
    ensures { result ≡ spec.is_on_way graph.now s one.now other.now x.now }
{
    (x.from == s && x.event == *one) || (x.event == *other && leads(graph, s, one, x.from))
}

/// Whether the state `s` leads by the event to the state `t`.
fn leads(graph: &Graph, s: StateId, e: &Event, t: StateId) -> bool
    ensures { result ≡ spec.leads graph.now s e.now t }
{
    has_step(graph.arcs_out(s), s, e, t)
}

/// Whether one of the arcs leads from `s` by the event to `t`.
fn has_step(arcs: &[Edge], s: StateId, e: &Event, t: StateId) -> bool
    ensures { result ≡ list_any (spec.is_step s e.now t) arcs.now }
{
    arcs.iter().any(|a| is_step(a, s, e, t))
}

/// Whether the arc leads from `s` by the event to `t`.
fn is_step(a: &Edge, s: StateId, e: &Event, t: StateId) -> bool
    ensures { result ≡ spec.is_step s e.now t a.now }
{
    a.from == s && a.event == *e && a.to == t
}
