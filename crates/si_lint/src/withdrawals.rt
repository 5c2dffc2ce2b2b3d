//! Events that another event disables.

ghost use Rattle.std.specs.Prelude.{◌≡◌, ◌↔◌, ◌<◌, IfOk, OnOk, IsTrue, MatchOption, length};
ghost use Rattle.si_base.specs.Codes.{IsDeterministic};
ghost use Rattle.si_base.specs.Graph.{enables};
ghost use Rattle.si_base.specs.Proper.{loss_place};
ghost use Rattle.si_told.specs.All.{AreAll};
ghost use Rattle.si_told.specs.Loops.Search.{Adds};
ghost use Rattle.si_lint.specs.Loops.Withdrawals.{Disables, IsBy, IsLostOf, WithdrawsAt};
ghost use Rattle.si_lint.specs.Loops.Withdrawals.{WithdrawsBy, WithdrawsOf, loss_of};

use si_base::graph::Edge;
use si_base::ids::{Event, NoMemory, StateId};
use si_graph::graph::Graph;
use std::alloc::Global;
use std::marker::Model;

/// Which events disable which others.
#[derive(Clone, Copy, PartialEq, Eq, Debug)]
pub(crate) enum Kind {
    /// Those of inputs disable those of inputs.
    Choice,
    /// Those of signals that the circuit drives disable those of inputs.
    Disabling,
}

/// A state `s` at which the event `by` disables the enabled event `lost`.
#[derive(Clone, Copy)]
pub(crate) struct Withdrawal {
    pub(crate) s: StateId,
    pub(crate) lost: Event,
    pub(crate) by: Event,
}

impl Model for Withdrawal {
    ghost use Rattle.si_base.specs.Proper.{Loss};

    ghost Value = { Loss };

    ghost view = { λ b. record { s = b.s; lost = b.lost; by = b.by } };

    ghost inverse = { λ b. record { s = b.s; lost = b.lost; by = b.by } };
}

/// The disabled events of that kind of a deterministic graph, by state, disabled and disabling
/// event. It fails only where memory runs out.
pub(crate) fn withdrawals(
    alloc: Global,
    graph: &Graph,
    kind: &Kind,
) -> Result<Vec<Withdrawal>, NoMemory>
    requires { IsDeterministic graph.now }
    ensures { IfOk result
        (λ found. AreAll loss_place (WithdrawsBy graph.now kind.now) found.items) }
{
    let _arcs = graph.arcs();
    let mut found: Vec<Withdrawal> = Vec::new(alloc);
    for k in 0..graph.states() {
        add_at(graph, StateId(k), kind, &mut found)?;
    }
    Ok(found)
}

/// Puts those at a state last.
fn add_at(
    graph: &Graph,
    s: StateId,
    kind: &Kind,
    found: &mut Vec<Withdrawal>,
) -> Result<(), NoMemory>
    requires { IsDeterministic graph.now }
    ensures { OnOk result
        (Adds loss_place (WithdrawsAt graph.now kind.now s) found.old.items found.new.items) }
{
    let arcs = graph.arcs_out(s);
    for x in arcs {
        if !is_lost(graph, kind, x.event) {
            continue;
        }
        add_of(graph, s, x.event, kind, found)?;
    }
    Ok(())
}

/// Puts those of an event that the state enables last.
fn add_of(
    graph: &Graph,
    s: StateId,
    lost: Event,
    kind: &Kind,
    found: &mut Vec<Withdrawal>,
) -> Result<(), NoMemory>
    requires deterministic { IsDeterministic graph.now }
    requires lost { IsLostOf graph.now kind.now lost }
    requires enabled { IsTrue (enables graph.now s lost) }
    ensures { OnOk result
        (Adds loss_place (WithdrawsOf graph.now kind.now s lost) found.old.items found.new.items) }
{
    let arcs = graph.arcs_out(s);
    for y in arcs {
        if let Some(one) = withdrawal_by(graph, s, kind, &lost, y) {
            found.push(one)?;
        }
    }
    Ok(())
}

/// What the arc disables, where it is by another event than `lost`, one of that kind, and `lost`
/// isn't enabled after it.
fn withdrawal_by(
    graph: &Graph,
    s: StateId,
    kind: &Kind,
    lost: &Event,
    arc: &Edge,
) -> Option<Withdrawal>
    requires { arc.now.event.sig < length graph.now.signals }
    ensures { let e = arc.now.event in MatchOption result
        (¬ Disables graph.now kind.now lost.now e arc.now.to)
        (λ b. (b ≡ loss_of s lost.now e) × Disables graph.now kind.now lost.now e arc.now.to) }
{
    if arc.event == *lost {
        return None;
    }
    if !is_by(graph, kind, arc.event) {
        return None;
    }
    if graph.enabled(arc.to, *lost) {
        return None;
    }
    Some(Withdrawal {
        s,
        lost: *lost,
        by: arc.event,
    })
}

/// Whether an event of that kind is looked for as a disabled one.
fn is_lost(graph: &Graph, kind: &Kind, e: Event) -> bool
    requires { e.sig < length graph.now.signals }
    ensures { IsTrue result ↔ IsLostOf graph.now kind.now e }
{
    match kind {
        Kind::Choice => !graph.is_driven(e.sig),
        Kind::Disabling => !graph.is_driven(e.sig),
    }
}

/// Whether one is looked for as a disabling one.
fn is_by(graph: &Graph, kind: &Kind, e: Event) -> bool
    requires { e.sig < length graph.now.signals }
    ensures { IsTrue result ↔ IsBy graph.now kind.now e }
{
    match kind {
        Kind::Choice => !graph.is_driven(e.sig),
        Kind::Disabling => graph.is_driven(e.sig),
    }
}
