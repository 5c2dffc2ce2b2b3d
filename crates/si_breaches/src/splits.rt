//! Events that lead from a state to several.

ghost use Rattle.std.specs.Prelude.{◌≡◌, IfOk, MatchOption};
ghost use Rattle.si_base.specs.Proper.{split_place};
ghost use Rattle.si_told.specs.All.{AreAll};
ghost use Rattle.si_breaches.specs.Breaches.{IsSplit};
ghost use Rattle.si_breaches.specs.Loops.Breaches.{AreOneStep, split_of};

use si_base::graph::Edge;
use si_base::ids::{Event, NoMemory, StateId};
use si_graph::graph::Graph;
use std::alloc::Global;
use std::marker::Model;

/// A state `s` that leads by `e` to both `t` and `u`.
#[derive(Clone, Copy)]
pub(crate) struct Split {
    pub(crate) s: StateId,
    pub(crate) e: Event,
    pub(crate) t: StateId,
    pub(crate) u: StateId,
}

impl Model for Split {
    ghost use Rattle.si_base.specs.Proper as proper;

    ghost Value = { proper.Split };

    ghost view = { λ b. record { s = b.s; e = b.e; t = b.t; u = b.u } };

    ghost inverse = { λ b. record { s = b.s; e = b.e; t = b.t; u = b.u } };
}

/// The states to which one event leads from a state, each with the next of them, by state, event
/// and target. It fails only where memory runs out.
pub(crate) fn splits(alloc: Global, graph: &Graph) -> Result<Vec<Split>, NoMemory>
    ensures { IfOk result (λ found. AreAll split_place (IsSplit graph.now) found.items) }
{
    let arcs = graph.arcs();
    let mut found: Vec<Split> = Vec::new(alloc);
    for k in 1..arcs.len() {
        if let Some(split) = split_by(&arcs[k - 1], &arcs[k]) {
            found.push(split)?;
        }
    }
    Ok(found)
}

/// What two arcs tell, where they are by one event from one state.
fn split_by(x: &Edge, y: &Edge) -> Option<Split>
    ensures { MatchOption result (¬ AreOneStep x.now y.now)
        (λ b. (b ≡ split_of x.now y.now) × AreOneStep x.now y.now) }
{
    if x.from != y.from {
        return None;
    }
    if x.event != y.event {
        return None;
    }
    Some(Split {
        s: x.from,
        e: x.event,
        t: x.to,
        u: y.to,
    })
}
