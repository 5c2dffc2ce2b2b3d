//! The least partition of a target: the fewest states where a new signal switches that is to be 1
//! at the same states.

ghost use Rattle.std.specs.Prelude.{◌<◌, length};

use si_base::graph::Edge;
use si_base::ids::{NoMemory, StateId};
use si_base::sets::StateSet;
use si_candidates::sides::class_by;
use si_graph::graph::Graph;
use si_insert::partition::Class;
use std::alloc::Global;

/// The classes with the fewest states where the new signal switches to the value to which it goes
/// by these classes; whether they are lawful and accepted is left open. `None` where acceptance
/// asks it to switch to a value at a state that wants the other: then no partition has this target.
/// It fails only where memory runs out.
///
/// The states where the signal switches to a value begin where that value is first wanted. They
/// grow by what acceptance asks for: back along arcs within the states that want the value, along
/// arcs of inputs, and past an arc which would else disable an event that the circuit drives.
pub(crate) fn least_classes(
    alloc: Global,
    graph: &Graph,
    classes: &[Class],
) -> Result<Option<Vec<Class>>, NoMemory> {
    let high = wanted(alloc, graph.states(), classes, true)?;
    let Some(plus) = switching(alloc, graph, &high)? else {
        return Ok(None);
    };
    let low = wanted(alloc, graph.states(), classes, false)?;
    let Some(minus) = switching(alloc, graph, &low)? else {
        return Ok(None);
    };
    let mut list = Vec::new(alloc);
    for k in 0..graph.states() {
        let s = StateId(k);
        list.push(class_by(has(&plus, s), has(&minus, s), has(&high, s)))?;
    }
    Ok(Some(list))
}

/// Whether the state is in the set.
pub(crate) fn has(set: &StateSet, s: StateId) -> bool {
    s.0 < set.size() && set.has(s)
}

/// Whether the new signal is to have the value at states of the class.
pub(crate) fn is_wanted(class: Class, value: bool) -> bool {
    matches!(class, Class::Rising | Class::High) == value
}

/// The states at which the new signal is to have the value.
fn wanted(
    alloc: Global,
    states: u32,
    classes: &[Class],
    value: bool,
) -> Result<StateSet, NoMemory> {
    let mut set = StateSet::new(alloc, states)?;
    for k in 0..states {
        let Some(class) = classes.get(k as usize) else {
            return Ok(set);
        };
        if is_wanted(*class, value) {
            put(&mut set, StateId(k));
        }
    }
    Ok(set)
}

/// The states where the signal switches to the value that these states want: those where the value
/// is first wanted, and what follows from them. `None` where other states follow.
fn switching(
    alloc: Global,
    graph: &Graph,
    wanted: &StateSet,
) -> Result<Option<StateSet>, NoMemory> {
    let mut set = StateSet::new(alloc, graph.states())?;
    for arc in graph.arcs() {
        if has(wanted, arc.to) && !has(wanted, arc.from) {
            put(&mut set, arc.to);
        }
    }
    for _ in 0..graph.states() {
        let grows = spread(graph, wanted, &mut set);
        if set.size() != wanted.size() || !set.is_subset(wanted) {
            return Ok(None);
        }
        if !grows {
            return Ok(Some(set));
        }
    }
    Ok(Some(set))
}

/// Adds what follows from the set by one pass over the arcs, and tells whether there was any.
fn spread(graph: &Graph, wanted: &StateSet, set: &mut StateSet) -> bool {
    let mut grows = false;
    for arc in graph.arcs() {
        if follow_arc(graph, wanted, set, arc) {
            grows = true;
        }
    }
    grows
}

/// Adds what follows along one arc, and tells whether there was any.
fn follow_arc(graph: &Graph, wanted: &StateSet, set: &mut StateSet, arc: &Edge) -> bool
    requires { arc.now.event.sig < length graph.now.signals }
{
    let back = has(wanted, arc.from) && has(set, arc.to) && put(set, arc.from);
    if !graph.is_driven(arc.event.sig) {
        return (has(set, arc.from) && put(set, arc.to)) || back;
    }
    follow_beside(graph, wanted, set, arc) || back
}

/// Adds the states to which the event of an arc leads after other arcs out of the same state, where
/// it would else be disabled, and tells whether there was any.
fn follow_beside(graph: &Graph, wanted: &StateSet, set: &mut StateSet, arc: &Edge) -> bool {
    if has(wanted, arc.from) && !(has(set, arc.from) && has(set, arc.to)) {
        return false;
    }
    let mut grows = false;
    for beside in graph.arcs_out(arc.from) {
        if put_past(graph, set, arc, beside) {
            grows = true;
        }
    }
    grows
}

/// Adds the state to which the event of the arc leads after the other arc, where the set has the
/// state between.
fn put_past(graph: &Graph, set: &mut StateSet, arc: &Edge, beside: &Edge) -> bool {
    if beside.event == arc.event || !has(set, beside.to) {
        return false;
    }
    match graph.succ(beside.to, arc.event) {
        Some(end) => put(set, end),
        None => false,
    }
}

/// Adds a state, and tells whether it is new.
fn put(set: &mut StateSet, s: StateId) -> bool {
    if set.size() <= s.0 || set.has(s) {
        return false;
    }
    set.add(s);
    true
}
