//! The classes of kin of a graph, and its first conflict of kin.

ghost use Rattle.std.specs.Prelude.{◌<◌, ◌↔◌, IfOk, IsTrue, length};
ghost use Rattle.si_base.specs.Codes.{CodedGraph};
ghost use Rattle.si_checks.specs.Loops.Searches.{Keeps};
ghost use Rattle.si_insert.specs.Accepted.{IsInput};
ghost use Rattle.si_kin.specs.Kin.{AreKinClasses, IsFirstKinOrNone, TellsKin};

use crate::alike::first_alike;
use crate::forest::{join, own_trees, settle};
use si_base::ids::{Event, NoMemory, StateId};
use si_checks::conflicts::differ;
use si_graph::coded::Coded;
use si_graph::graph::Graph;
use std::alloc::Global;

/// For each state a number, which states share exactly where they are kin: where inputs lead from
/// one to the other, each forwards or backwards. It fails only where memory runs out.
pub fn kin_classes(alloc: Global, coded: &Coded) -> Result<Vec<StateId>, NoMemory>
    ensures { IfOk result (λ classes. AreKinClasses coded.now classes.items) }
{
    let graph = coded.graph();
    let arcs = graph.arcs();
    let mut classes = own_trees(alloc, graph.states())?;
    for arc in arcs {
        if is_input(graph, arc.event) {
            join(&mut classes, arc.from, arc.to);
        }
    }
    settle(&mut classes);
    Ok(classes)
}

/// Whether the event is one of an input.
fn is_input(graph: &Graph, e: Event) -> bool
    requires { e.sig < length graph.now.signals }
    ensures { IsTrue result ↔ IsInput graph.now.signals e.sig }
{
    !graph.is_driven(e.sig)
}

/// Whether two states are kin, by the classes of their graph.
pub fn are_kin(classes: &[StateId], p: StateId, q: StateId) -> bool
    requires p { p < length classes.now }
    requires q { q < length classes.now }
    ensures { (c : CodedGraph) → AreKinClasses c classes.now → TellsKin c p q result }
{
    classes[p.0 as usize] == classes[q.0 as usize]
}

/// The first conflict whose states are kin, by the classes of the graph; `None` exactly where there
/// is none. It fails only where memory runs out.
///
/// Each state is compared with the first state of its class and code alone: if two states are a
/// conflict, one of them differs from that state.
pub fn first_kin_conflict(
    alloc: Global,
    coded: &Coded,
    classes: &[StateId],
) -> Result<Option<(StateId, StateId)>, NoMemory>
    requires { AreKinClasses coded.now classes.now }
    ensures { IfOk result (IsFirstKinOrNone coded.now) }
{
    let graph = coded.graph();
    let firsts = first_alike(alloc, coded, classes)?;
    let mut found: Option<(StateId, StateId)> = None;
    for s in 0..graph.states() {
        let q = StateId(s);
        let p = firsts[s as usize];
        if differ(graph, p, q) {
            found = Some(earlier(found, (p, q)));
        }
    }
    Ok(found)
}

/// The pair that was found, unless the first state of this one is earlier.
fn earlier(found: Option<(StateId, StateId)>, pair: (StateId, StateId)) -> (StateId, StateId)
    ensures { Keeps found pair result }
{
    let Some(best) = found else {
        return pair;
    };
    if best.0 <= pair.0 { best } else { pair }
}
