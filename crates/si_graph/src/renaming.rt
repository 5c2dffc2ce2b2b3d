//! New ids for the states of a set: their places in it.

ghost use Rattle.std.specs.Prelude.{◌≡◌, ◌<◌, length, IfOk, All, map, filter};
ghost use Rattle.si_graph.specs.Loops.Renaming.{Renames, renamed, leaves_marked};

use si_base::graph::Edge;
use si_base::ids::{NoMemory, StateId};
use si_base::sets::StateSet;
use std::alloc::Global;

/// The states of a set in order, and for each state of the graph its place among them.
#[derive(Drop)]
pub(crate) struct Renaming {
    pub(crate) kept: Vec<StateId>,
    pub(crate) places: Vec<StateId>,
}

/// The renaming to the states of the set. The place of a state outside it has no meaning.
pub(crate) fn rename(alloc: Global, set: &StateSet) -> Result<Renaming, NoMemory>
    ensures { IfOk result (λ r. Renames set.now (length set.now) r.kept.items r.places.items) }
{
    let mut kept = Vec::new(alloc);
    let mut places = Vec::new(alloc);
    for s in 0..set.size() {
        places.push(StateId(kept.len() as u32))?;
        if set.has(StateId(s)) {
            kept.push(StateId(s))?;
        }
    }
    Ok(Renaming { kept, places })
}

/// The arcs that leave states of the set, between the new ids.
pub(crate) fn renamed_arcs(
    alloc: Global,
    arcs: &[Edge],
    set: &StateSet,
    places: &[StateId],
) -> Result<Vec<Edge>, NoMemory>
    requires within { All (λ a. (a.from < length set.now) × (a.to < length set.now)) arcs.now }
    requires places { length places.now ≡ length set.now }
    ensures { IfOk result
        (λ v. v.items ≡ map (renamed places.now) (filter (leaves_marked set.now) arcs.now)) }
{
    let mut out = Vec::new(alloc);
    for arc in arcs {
        if set.has(arc.from) {
            out.push(Edge {
                from: places[arc.from.0 as usize],
                event: arc.event,
                to: places[arc.to.0 as usize],
            })?;
        }
    }
    Ok(out)
}
