//! The inserted graph.

ghost use Rattle.std.specs.Prelude.{◌≡◌, ◌<◌, ◌≤◌, ◌++◌, ◌∷◌, [], IfOk, OnOk, All};
ghost use Rattle.std.specs.Prelude.{length, map};
ghost use Rattle.si_base.specs.Graph.{IsGraph, IsMadeOf};
ghost use Rattle.si_base.specs.Limits.{max_signals};
ghost use Rattle.si_insert.specs.Accepted.{IsAccepted, copy_count};
ghost use Rattle.si_insert.specs.Loops.Applied.{IsApplied};
ghost use Rattle.si_insert.specs.Fresh.{IsTaken};
ghost use Rattle.si_insert.specs.Insertion;
ghost use Rattle.si_insert.specs.Insertion.{new_signal};
ghost use Rattle.si_insert.specs.GraphOfCopies;
ghost use Rattle.si_insert.specs.GraphOfCopies.{AreFirsts, CanBeMade, new_edges, new_start};
ghost use Rattle.si_insert.specs.Partition.{class_of};

use crate::accept::{Accepted, count_copies};
use crate::partition::Class;
use crate::state_copies::{StateCopy, copies_of, firsts_of, place};
use si_base::graph::{Edge, SigKind, Signal};
use si_base::ids::{Code, Event, NoMemory, Sig, StateId};
use si_base::text::Name;
use si_checks::proper::Proper;
use si_graph::coded::Coded;
use si_graph::graph::Graph;
use std::alloc::Global;

/// The inserted graph, and the copies that its states are.
#[derive(Drop)]
pub(crate) struct WithCopies {
    pub(crate) graph: Proper,
    pub(crate) copies: Vec<StateCopy>,
}

/// The graph into which the new signal of that name is inserted by the partition (the book's event
/// insertion). It fails only where memory runs out.
pub fn apply(
    alloc: Global,
    graph: &Proper,
    accepted: &Accepted,
    name: &Name,
) -> Result<Proper, NoMemory>
    requires accepted { IsAccepted graph.now.graph accepted.now }
    requires new { ¬ IsTaken graph.now.graph.signals name.now }
    ensures { IfOk result (IsApplied graph.now accepted.now name.now) }
{
    let WithCopies { graph, .. } = apply_with_copies(alloc, graph, accepted, name)?;
    Ok(graph)
}

/// The same, with the copies.
pub(crate) fn apply_with_copies(
    alloc: Global,
    graph: &Proper,
    accepted: &Accepted,
    name: &Name,
) -> Result<WithCopies, NoMemory>
    requires accepted { IsAccepted graph.now.graph accepted.now }
    requires new { ¬ IsTaken graph.now.graph.signals name.now }
    ensures graph { IfOk result (λ r. IsApplied graph.now accepted.now name.now r.graph) }
    ensures copies { IfOk result (λ r. r.copies.items ≡ GraphOfCopies.copies_of accepted.now) }
{
    let coded = graph.coded();
    let given = coded.graph();
    let classes = accepted.partition().classes();
    let copies = copies_of(alloc, classes)?;
    let made = graph_of_copies(alloc, given, classes, copies.as_slice(), name)?;
    let codes = codes_of(alloc, coded, copies.as_slice())?;
    let inserted = Coded::known(alloc, made, codes)?;
    let graph = Proper::known(inserted);
    Ok(WithCopies { graph, copies })
}

/// The inserted graph, without its codes. Its arcs come in order, so that to sort them again takes
/// one pass.
fn graph_of_copies(
    alloc: Global,
    graph: &Graph,
    classes: &[Class],
    copies: &[StateCopy],
    name: &Name,
) -> Result<Graph, NoMemory>
    requires graph { IsGraph graph.now }
    requires count { length classes.now ≡ graph.now.states }
    requires copies { copies.now ≡ GraphOfCopies.copies_of classes.now }
    requires room { length graph.now.signals < max_signals }
    requires conditions { CanBeMade (graph.now.signals ++ new_signal name.now ∷ [])
        (copy_count classes.now) (new_edges graph.now classes.now)
        (new_start graph.now classes.now) }
    ensures { IfOk result (IsMadeOf (graph.now.signals ++ new_signal name.now ∷ [])
        (copy_count classes.now) (new_edges graph.now classes.now)
        (new_start graph.now classes.now)) }
{
    let firsts = firsts_of(alloc, classes)?;
    let firsts = firsts.as_slice();
    let edges = edges_of(alloc, graph, classes, firsts, copies)?;
    let signals = with_new(alloc, graph, name)?;
    let start = graph.start();
    let start = place(firsts, classes, start, classes[start.0 as usize].entry());
    Graph::make(alloc, signals, count_copies(classes), edges, start)
}

/// The signals of the graph, and the new one of that name last.
fn with_new(alloc: Global, graph: &Graph, name: &Name) -> Result<Vec<Signal>, NoMemory>
    ensures { IfOk result
        (λ signals. signals.items ≡ graph.now.signals ++ new_signal name.now ∷ []) }
{
    let mut signals = graph.copied_signals(alloc)?;
    signals.push(Signal {
        name: Name::copy_of(alloc, name.bytes())?,
        kind: SigKind::Inserted,
    })?;
    Ok(signals)
}

/// The arcs of the inserted graph in order: those out of each copy, one copy after another.
fn edges_of(
    alloc: Global,
    graph: &Graph,
    classes: &[Class],
    firsts: &[StateId],
    copies: &[StateCopy],
) -> Result<Vec<Edge>, NoMemory>
    requires graph { IsGraph graph.now }
    requires count { length classes.now ≡ graph.now.states }
    requires firsts { AreFirsts classes.now firsts.now }
    requires copies { copies.now ≡ GraphOfCopies.copies_of classes.now }
    ensures all { IfOk result (λ edges. edges.items ≡ new_edges graph.now classes.now) }
{
    let mut edges = Vec::with_capacity(alloc, graph.edges() as usize + copies.len())?;
    for x in copies {
        add_copied(&mut edges, graph, classes, firsts, *x)?;
        add_switch(&mut edges, graph, classes, firsts, *x)?;
    }
    Ok(edges)
}

/// Adds the arcs of the graph out of a copy.
fn add_copied(
    edges: &mut Vec<Edge>,
    graph: &Graph,
    classes: &[Class],
    firsts: &[StateId],
    x: StateCopy,
) -> Result<(), NoMemory>
    requires count { length classes.now ≡ graph.now.states }
    requires firsts { AreFirsts classes.now firsts.now }
    requires within { x.state < length classes.now }
    ensures { OnOk result
        (edges.new.items ≡ edges.old.items ++ GraphOfCopies.copied_edges graph.now classes.now x) }
{
    let arcs = graph.arcs_out(x.state);
    let class = classes[x.state.0 as usize];
    let from = place(firsts, classes, x.state, x.value);
    for a in arcs {
        if edge_has_copy(classes, class, *a, x.value) {
            edges.push(copied_edge(firsts, classes, from, *a, x.value))?;
        }
    }
    Ok(())
}

/// Whether an arc out of a state of the class has a copy at the value.
fn edge_has_copy(classes: &[Class], from: Class, a: Edge, value: bool) -> bool
    requires from { from ≡ class_of classes.now a.from }
    requires to { a.to < length classes.now }
    ensures { result ≡ GraphOfCopies.edge_has_copy classes.now value a }
{
    let to = classes[a.to.0 as usize];
    from.has_copy(value) && !from.waits(to, value)
}

/// The copy of an arc at the value, out of the copy at that place.
fn copied_edge(firsts: &[StateId], classes: &[Class], from: StateId, a: Edge, value: bool) -> Edge
    requires from { from ≡ GraphOfCopies.place classes.now a.from value }
    requires to { a.to < length classes.now }
    requires few { length classes.now ≤ Rattle.si_base.specs.Limits.max_states }
    requires firsts { AreFirsts classes.now firsts.now }
    ensures { result ≡ GraphOfCopies.copied_edge classes.now value a }
{
    Edge {
        from,
        event: a.event,
        to: place(firsts, classes, a.to, value),
    }
}

/// Adds the arc of the new signal out of a copy, if it switches there.
fn add_switch(
    edges: &mut Vec<Edge>,
    graph: &Graph,
    classes: &[Class],
    firsts: &[StateId],
    x: StateCopy,
) -> Result<(), NoMemory>
    requires graph { IsGraph graph.now }
    requires count { length classes.now ≡ graph.now.states }
    requires firsts { AreFirsts classes.now firsts.now }
    requires within { x.state < length classes.now }
    ensures { OnOk result
        (edges.new.items ≡ edges.old.items ++ GraphOfCopies.switch_edges graph.now classes.now x) }
{
    let up = !x.value;
    if classes[x.state.0 as usize].switches(up) {
        let new = Sig(graph.signals().len() as u8);
        edges.push(Edge {
            from: place(firsts, classes, x.state, x.value),
            event: Event { sig: new, up },
            to: place(firsts, classes, x.state, up),
        })?;
    }
    Ok(())
}

/// The codes of the copies.
fn codes_of(alloc: Global, coded: &Coded, copies: &[StateCopy]) -> Result<Vec<Code>, NoMemory>
    requires within { All (λ x. x.state < coded.now.graph.states) copies.now }
    requires room { length coded.now.graph.signals < max_signals }
    ensures { IfOk result (λ codes. codes.items ≡ map (Insertion.copy_code coded.now) copies.now) }
{
    let mut codes = Vec::new(alloc);
    for x in copies {
        codes.push(code_of(coded, *x))?;
    }
    Ok(codes)
}

/// The code of a copy: that of its state, with the value of the new signal last.
fn code_of(coded: &Coded, x: StateCopy) -> Code
    requires within { x.state < coded.now.graph.states }
    requires room { length coded.now.graph.signals < max_signals }
    ensures { result ≡ Insertion.copy_code coded.now x }
{
    let code = coded.code(x.state);
    let new = Sig(coded.graph().signals().len() as u8);
    if x.value { code.flip(new) } else { code }
}
