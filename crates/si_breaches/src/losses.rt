//! Events of signals that the circuit drives that another event disables.

ghost use Rattle.std.specs.Prelude.{◌≡◌, ◌↔◌, IfOk, OnOk, IsTrue};
ghost use Rattle.si_base.specs.Graph.{IsNonInput, enables};
ghost use Rattle.si_base.specs.Proper.{Loses, loss_place};
ghost use Rattle.si_breaches.specs.Loops.Breaches.{LosesAt, LosesOf};
ghost use Rattle.si_breaches.specs.Loops.Steps.{AreEnabled, TakesAway};
ghost use Rattle.si_told.specs.All.{AreAll};
ghost use Rattle.si_told.specs.Loops.Search.{Adds};

use crate::steps::{arcs_by, events_at};
use si_base::ids::{Event, NoMemory, StateId};
use si_graph::graph::Graph;
use std::alloc::Global;
use std::marker::Model;

/// A state `s` at which the event `by` disables the enabled event `lost`.
#[derive(Clone, Copy)]
pub(crate) struct Loss {
    pub(crate) s: StateId,
    pub(crate) lost: Event,
    pub(crate) by: Event,
}

impl Model for Loss {
    ghost use Rattle.si_base.specs.Proper as proper;

    ghost Value = { proper.Loss };

    ghost view = { λ b. record { s = b.s; lost = b.lost; by = b.by } };

    ghost inverse = { λ b. record { s = b.s; lost = b.lost; by = b.by } };
}

/// The losses by state, disabled and disabling event. It fails only where memory runs out.
pub(crate) fn losses(alloc: Global, graph: &Graph) -> Result<Vec<Loss>, NoMemory>
    ensures { IfOk result (λ found. AreAll loss_place (Loses graph.now) found.items) }
{
    let _arcs = graph.arcs();
    let mut found: Vec<Loss> = Vec::new(alloc);
    for k in 0..graph.states() {
        add_at(alloc, graph, StateId(k), &mut found)?;
    }
    Ok(found)
}

/// Puts those at a state last.
fn add_at(alloc: Global, graph: &Graph, s: StateId, found: &mut Vec<Loss>) -> Result<(), NoMemory>
    ensures { OnOk result
        (Adds loss_place (LosesAt graph.now s) found.old.items found.new.items) }
{
    let _arcs = graph.arcs();
    let enabled = events_at(alloc, graph, s)?;
    let events = enabled.as_slice();
    for lost in events {
        if !graph.is_driven(lost.sig) {
            continue;
        }
        add_of(graph, s, events, lost, found)?;
    }
    Ok(())
}

/// Puts those of an event that the state enables last.
fn add_of(
    graph: &Graph,
    s: StateId,
    events: &[Event],
    lost: &Event,
    found: &mut Vec<Loss>,
) -> Result<(), NoMemory>
    requires events { AreEnabled graph.now s events.now }
    requires non_input { IsNonInput graph.now.signals lost.now.sig }
    requires enabled { IsTrue (enables graph.now s lost.now) }
    ensures { OnOk result
        (Adds loss_place (LosesOf graph.now s lost.now) found.old.items found.new.items) }
{
    for by in events {
        if takes_away(graph, s, lost, by) {
            found.push(Loss {
                s,
                lost: *lost,
                by: *by,
            })?;
        }
    }
    Ok(())
}

/// Whether another event leads to a state at which `lost` isn't enabled.
fn takes_away(graph: &Graph, s: StateId, lost: &Event, by: &Event) -> bool
    ensures { IsTrue result ↔ TakesAway graph.now s lost.now by.now }
{
    if *by == *lost {
        return false;
    }
    let arcs = arcs_by(graph, s, *by);
    for x in arcs {
        if !graph.enabled(x.to, *lost) {
            return true;
        }
    }
    false
}
