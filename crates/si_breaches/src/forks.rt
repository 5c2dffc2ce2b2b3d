//! Pairs of events whose two orders end in different states.

ghost use Rattle.std.specs.Prelude.{◌≡◌, IfOk, OnOk};
ghost use Rattle.si_base.specs.Proper.{fork_place};
ghost use Rattle.si_checks.specs.Loops.Searches.{IsOneOrNone};
ghost use Rattle.si_breaches.specs.Breaches.{IsFirstFork};
ghost use Rattle.si_breaches.specs.Loops.Breaches.{ForksAt, ForksOf, ForksBy};
ghost use Rattle.si_breaches.specs.Loops.Steps.{AreEnabled};
ghost use Rattle.si_told.specs.All.{AreAll};
ghost use Rattle.si_told.specs.Loops.Search.{Adds};

use crate::steps::{ends_apart, events_at};
use si_base::ids::{Event, NoMemory, StateId};
use si_graph::graph::Graph;
use std::alloc::Global;
use std::marker::Model;

/// A state `s` that leads by `a` and then `c` to `w`, and by `c` and then `a` to another state `w2`.
#[derive(Clone, Copy)]
pub(crate) struct Fork {
    pub(crate) s: StateId,
    pub(crate) a: Event,
    pub(crate) c: Event,
    pub(crate) w: StateId,
    pub(crate) w2: StateId,
}

impl Model for Fork {
    ghost use Rattle.si_base.specs.Proper as proper;

    ghost Value = { proper.Fork };

    ghost view = { λ b. record { s = b.s; a = b.a; c = b.c; w = b.w; w2 = b.w2 } };

    ghost inverse = { λ b. record { s = b.s; a = b.a; c = b.c; w = b.w; w2 = b.w2 } };
}

/// The forks by state and events, of each with the first ends. It fails only where memory runs out.
pub(crate) fn forks(alloc: Global, graph: &Graph) -> Result<Vec<Fork>, NoMemory>
    ensures { IfOk result (λ found. AreAll fork_place (IsFirstFork graph.now) found.items) }
{
    let _arcs = graph.arcs();
    let mut found: Vec<Fork> = Vec::new(alloc);
    for k in 0..graph.states() {
        add_at(alloc, graph, StateId(k), &mut found)?;
    }
    Ok(found)
}

/// Puts those at a state last.
fn add_at(alloc: Global, graph: &Graph, s: StateId, found: &mut Vec<Fork>) -> Result<(), NoMemory>
    ensures { OnOk result
        (Adds fork_place (ForksAt graph.now s) found.old.items found.new.items) }
{
    let enabled = events_at(alloc, graph, s)?;
    let events = enabled.as_slice();
    for a in events {
        add_of(graph, s, events, a, found)?;
    }
    Ok(())
}

/// Puts those of an event and a later one last.
fn add_of(
    graph: &Graph,
    s: StateId,
    events: &[Event],
    a: &Event,
    found: &mut Vec<Fork>,
) -> Result<(), NoMemory>
    requires { AreEnabled graph.now s events.now }
    ensures { OnOk result
        (Adds fork_place (ForksOf graph.now s a.now) found.old.items found.new.items) }
{
    for c in events {
        if let Some(fork) = fork_of(graph, s, a, c) {
            found.push(fork)?;
        }
    }
    Ok(())
}

/// The first fork of two events at a state, the second a later one, where there is one.
fn fork_of(graph: &Graph, s: StateId, a: &Event, c: &Event) -> Option<Fork>
    ensures { IsOneOrNone (ForksBy graph.now s a.now c.now) result }
{
    if *c <= *a {
        return None;
    }
    let ends = ends_apart(graph, s, a, c)?;
    Some(Fork {
        s,
        a: *a,
        c: *c,
        w: ends.0,
        w2: ends.1,
    })
}
