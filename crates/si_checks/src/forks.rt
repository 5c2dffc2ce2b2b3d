//! The first breach of commutativity at a state.

ghost use Rattle.std.specs.Prelude.{Contains};
ghost use Rattle.si_base.specs.Codes.{IsDeterministic};
ghost use Rattle.si_base.specs.Proper.{fork_place};
ghost use Rattle.si_checks.specs.Loops.Searches.{IsFirstOrNone, IsOneOrNone, EndsApart, ForksAt};
ghost use Rattle.si_checks.specs.Loops.Searches.{ForksBy};

use si_base::graph::Edge;
use si_base::ids::{Event, StateId};
use si_graph::graph::Graph;
use std::marker::Model;

/// A state `s` that leads by `a` and then `c` to `w`, and by `c` and then `a` to another state
/// `w2`.
#[derive(Clone, Copy)]
pub struct Fork {
    pub s: StateId,
    pub a: Event,
    pub c: Event,
    pub w: StateId,
    pub w2: StateId,
}

impl Model for Fork {
    ghost use Rattle.si_base.specs.Proper as proper;

    ghost Value = { proper.Fork };

    ghost view = { λ b. record { s = b.s; a = b.a; c = b.c; w = b.w; w2 = b.w2 } };

    ghost inverse = { λ b. record { s = b.s; a = b.a; c = b.c; w = b.w; w2 = b.w2 } };
}

/// The first fork at a state.
pub fn first_fork_at(graph: &Graph, s: StateId) -> Option<Fork>
    requires { IsDeterministic graph.now }
    ensures { IsFirstOrNone fork_place (ForksAt graph.now s) result }
{
    let arcs = graph.arcs_out(s);
    for x in arcs {
        if let Some(fork) = first_fork_by(graph, *x) {
            return Some(fork);
        }
    }
    None
}

/// The first fork of an arc and a later event.
fn first_fork_by(graph: &Graph, x: Edge) -> Option<Fork>
    requires deterministic { IsDeterministic graph.now }
    requires arc { Contains graph.now.edges x }
    ensures { IsFirstOrNone fork_place (ForksBy graph.now x.from x.event) result }
{
    let arcs = graph.arcs_out(x.from);
    for y in arcs {
        if y.event <= x.event {
            continue;
        }
        if let Some((w, w2)) = ends_apart(graph, x, *y) {
            return Some(Fork {
                s: x.from,
                a: x.event,
                c: y.event,
                w,
                w2,
            });
        }
    }
    None
}

/// The two states to which the targets of two arcs lead by the other arc's event, where these
/// states differ.
fn ends_apart(graph: &Graph, x: Edge, y: Edge) -> Option<(StateId, StateId)>
    requires { IsDeterministic graph.now }
    ensures { IsOneOrNone (EndsApart graph.now x.to y.event y.to x.event) result }
{
    let w = graph.succ(x.to, y.event)?;
    let w2 = graph.succ(y.to, x.event)?;
    if w == w2 { None } else { Some((w, w2)) }
}
