//! Acceptance of a partition, by tests on the arcs of the graph and on two steps from one state.

ghost use Rattle.std.specs.Prelude.{◌≡◌, ◌<◌, ◌≤◌, ◌↔◌, ◌&&◌, ◌||◌, true, false, IfOk};
ghost use Rattle.std.specs.Prelude.{IfErr, IfSome, IfNone, IsTrue, MatchOption, length};
ghost use Rattle.si_base.specs.declared.graph.Edge.{Edge};
ghost use Rattle.si_base.specs.Order.{IsFirst};
ghost use Rattle.si_insert.specs.Partition.{edge_place};
ghost use Rattle.si_base.specs.Graph.{IsGraph};
ghost use Rattle.si_base.specs.Codes.{IsDeterministic};
ghost use Rattle.si_base.specs.Limits.{max_states};
ghost use Rattle.si_insert.specs.Partition.{IsLawful};
ghost use Rattle.si_insert.specs.Accepted.{IsInput, IsAccepted, ShowsRejected, copy_count};
ghost use Rattle.si_insert.specs.Accepted.{DelaysNoInput, StaysProper};
ghost use Rattle.si_insert.specs.Loops.Pairs.{breaks, IsHeld, IsBroken, ArcWaits, PairBreaks};
ghost use Rattle.si_insert.specs.Loops.Pairs.{ArcBreaks};

use crate::partition::{Class, Partition};
use si_base::graph::{Edge, SigKind};
use si_base::ids::{Event, Sig, StateId};
use si_base::limits::{MAX_SIGNALS, MAX_STATES};
use si_checks::proper::Proper;
use si_graph::graph::Graph;
use std::marker::Model;

/// A partition that was accepted. Contracts see it as the list of the classes.
#[derive(Drop)]
pub struct Accepted {
    partition: Partition,
}

impl Model for Accepted {
    ghost use Rattle.std.specs.Prelude.{List};
    ghost use Rattle.si_insert.specs.declared.partition.Class.{Class};

    ghost Value = { List Class };

    ghost view = { λ a. a.partition };
}

impl Accepted {
    /// The partition.
    pub fn partition(&self) -> &Partition
        ensures { result.now ≡ self.now }
    {
        &self.partition
    }

    /// The partition itself.
    pub(crate) fn into_partition(self) -> Partition
        ensures { result ≡ self }
    {
        let Accepted { partition } = self;
        partition
    }

    /// A partition of which it was known that it is accepted.
    pub(crate) fn of(partition: Partition) -> Accepted
        ensures { result ≡ partition }
    {
        Accepted { partition }
    }

    /// The partition, of which it is known that it is accepted for the graph.
    pub fn known(graph: &Proper, partition: Partition) -> Accepted
        requires { IsAccepted graph.now.graph partition }
        ensures { result ≡ partition }
    {
        let _ = graph;
        Accepted::of(partition)
    }
}

/// Why a lawful partition isn't accepted.
#[derive(Clone, Copy, PartialEq, Eq, Debug)]
pub enum Rejected {
    /// The input event `e`, enabled at `s`, isn't enabled at each copy of `s`.
    DelaysInput { s: StateId, e: Event },
    /// At a copy of `s` both events are enabled, and `by` disables the non-input event `lost`.
    BreaksPersistency { s: StateId, lost: Event, by: Event },
    /// The inserted graph would have that many states, which are too many.
    TooLarge { states: u64 },
    /// The graph has as many signals as a graph may have.
    NoCodeBit,
}

/// Whether the signal is an input.
pub fn is_input(graph: &Graph, z: Sig) -> bool
    requires { z < length graph.now.signals }
    ensures { IsTrue result ↔ IsInput graph.now.signals z }
{
    graph.signals()[z.0 as usize].kind == SigKind::Input
}

/// Whether the input's arc waits at some value.
fn arc_waits(graph: &Graph, classes: &[Class], a: Edge) -> bool
    requires count { length classes.now ≡ graph.now.states }
    requires from { a.from < graph.now.states }
    requires to { a.to < graph.now.states }
    requires sig { a.event.sig < length graph.now.signals }
    ensures { IsTrue result ↔ IsHeld graph.now classes.now a }
{
    let s = classes[a.from.0 as usize];
    let t = classes[a.to.0 as usize];
    is_input(graph, a.event.sig) && (s.waits(t, false) || s.waits(t, true))
}

/// The first arc of an input that waits.
fn waiting_arc(graph: &Graph, classes: &[Class]) -> Option<Edge>
    requires { length classes.now ≡ graph.now.states }
    ensures { MatchOption result ((a : Edge) → ArcWaits graph.now classes.now a → ⊥)
        (IsFirst edge_place (ArcWaits graph.now classes.now)) }
{
    for a in graph.arcs() {
        if arc_waits(graph, classes, *a) {
            return Some(*a);
        }
    }
    None
}

/// Whether arcs between these classes break one another at the value.
fn breaks_at(s: Class, t: Class, u: Class, w: Class, value: bool) -> bool
    ensures { result ≡ breaks s t u w value }
{
    s.has_copy(value) && !s.waits(t, value) && !s.waits(u, value) && u.waits(w, value)
}

/// The same at some value.
fn breaks_somewhere(s: Class, t: Class, u: Class, w: Class) -> bool
    ensures { result ≡ (breaks s t u w false || breaks s t u w true) }
{
    breaks_at(s, t, u, w, false) || breaks_at(s, t, u, w, true)
}

/// Whether the arc `b`, from the state from which `a` is, breaks `a`.
fn is_broken(graph: &Graph, classes: &[Class], a: Edge, b: Edge) -> bool
    requires count { length classes.now ≡ graph.now.states }
    requires one { IsDeterministic graph.now }
    requires graph { IsGraph graph.now }
    requires from { a.from < graph.now.states }
    requires to { a.to < graph.now.states }
    requires same { b.from ≡ a.from }
    requires other { b.to < graph.now.states }
    ensures { IsTrue result ↔ IsBroken graph.now classes.now a b }
{
    if b.event == a.event {
        return false;
    }
    let s = classes[a.from.0 as usize];
    let t = classes[a.to.0 as usize];
    let u = classes[b.to.0 as usize];
    match graph.succ(b.to, a.event) {
        None => false,
        Some(end) => {
            let w = classes[end.0 as usize];
            breaks_somewhere(s, t, u, w)
        }
    }
}

/// The first arc that breaks `a`, among those from the same state.
fn breaking_arc(graph: &Graph, classes: &[Class], a: &Edge) -> Option<Edge>
    requires count { length classes.now ≡ graph.now.states }
    requires one { IsDeterministic graph.now }
    requires graph { IsGraph graph.now }
    requires from { a.now.from < graph.now.states }
    requires to { a.now.to < graph.now.states }
    ensures { MatchOption result ((b : Edge) → PairBreaks graph.now classes.now a.now b → ⊥)
        (IsFirst edge_place (PairBreaks graph.now classes.now a.now)) }
{
    let arcs = graph.arcs_out(a.from);
    for b in arcs {
        if is_broken(graph, classes, *a, *b) {
            return Some(*b);
        }
    }
    None
}

/// An arc and the one that breaks it.
#[derive(Clone, Copy)]
struct Breach {
    a: Edge,
    b: Edge,
}

/// The first arc of a non-input that some arc breaks, and the first that breaks it.
fn broken_arc(graph: &Graph, classes: &[Class]) -> Option<Breach>
    requires count { length classes.now ≡ graph.now.states }
    requires one { IsDeterministic graph.now }
    ensures none { IfNone result ((a : Edge) → ArcBreaks graph.now classes.now a → ⊥) }
    ensures arc { IfSome result (λ r. IsFirst edge_place (ArcBreaks graph.now classes.now) r.a) }
    ensures by { IfSome result
        (λ r. IsFirst edge_place (PairBreaks graph.now classes.now r.a) r.b) }
{
    for a in graph.arcs() {
        if graph.is_driven(a.event.sig) {
            match breaking_arc(graph, classes, a) {
                Some(b) => return Some(Breach { a: *a, b }),
                None => {}
            }
        }
    }
    None
}

/// The number of copies.
pub(crate) fn count_copies(classes: &[Class]) -> u32
    requires { length classes.now ≤ max_states }
    ensures { result ≡ copy_count classes.now }
{
    let mut n = 0;
    for c in classes {
        n += c.copies();
    }
    n
}

/// The partition where the inserted graph is proper, within the limits, and delays no input; or the
/// first reason against it. The partition comes back. It takes no memory: the arcs of the graph and
/// pairs of steps from one state decide.
pub fn accept(graph: &Proper, partition: Partition) -> Result<Accepted, (Partition, Rejected)>
    requires { IsLawful graph.now.graph partition }
    ensures same { IfOk result (λ a. a ≡ partition) }
    ensures accepted { IfOk result (IsAccepted graph.now.graph) }
    ensures back { IfErr result (λ e. e.0 ≡ partition) }
    ensures fault { IfErr result (λ e. ShowsRejected graph.now.graph partition e.1) }
{
    let g = graph.coded().graph();
    if let Some(a) = waiting_arc(g, partition.classes()) {
        return Err((
            partition,
            Rejected::DelaysInput {
                s: a.from,
                e: a.event,
            },
        ));
    }
    if let Some(r) = broken_arc(g, partition.classes()) {
        return Err((
            partition,
            Rejected::BreaksPersistency {
                s: r.a.from,
                lost: r.a.event,
                by: r.b.event,
            },
        ));
    }
    accept_by_size(graph, partition)
}

/// The same for a partition of which it is known that the inserted graph is proper and delays no
/// input: only the limits are left to test, and no arc is looked at.
pub fn accept_by_size(
    graph: &Proper,
    partition: Partition,
) -> Result<Accepted, (Partition, Rejected)>
    requires lawful { IsLawful graph.now.graph partition }
    requires proper { StaysProper graph.now.graph partition }
    requires inputs { DelaysNoInput graph.now.graph partition }
    ensures same { IfOk result (λ a. a ≡ partition) }
    ensures accepted { IfOk result (IsAccepted graph.now.graph) }
    ensures back { IfErr result (λ e. e.0 ≡ partition) }
    ensures fault { IfErr result (λ e. ShowsRejected graph.now.graph partition e.1) }
{
    let g = graph.coded().graph();
    let states = count_copies(partition.classes());
    if states > MAX_STATES {
        return Err((
            partition,
            Rejected::TooLarge {
                states: states as u64,
            },
        ));
    }
    if g.signals().len() >= MAX_SIGNALS {
        return Err((partition, Rejected::NoCodeBit));
    }
    Ok(Accepted { partition })
}
