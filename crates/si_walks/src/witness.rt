//! A state from which inputs alone lead to both states of a conflict.

ghost use Rattle.std.specs.Prelude.{◌<◌, IfOk, option_map};
ghost use Rattle.si_walks.specs.Joined.{IsSourceOrNone, source_of};

use crate::arcs::Arcs;
use crate::distances::distances;
use crate::sources::nearest;
use crate::walk::walk_by;
use si_base::ids::{Event, NoMemory, StateId};
use si_graph::coded::Coded;
use std::alloc::Global;

/// A state from which input events alone lead to both states of a pair, and the two walks.
#[derive(Drop)]
pub struct Witness {
    pub source: StateId,
    pub first: Vec<Event>,
    pub second: Vec<Event>,
}

/// The state from which the fewest input events lead to `p` and to `q` together, the least of
/// these, with the first walks; `None` exactly where input events alone lead to both from no state.
/// It fails only where memory runs out.
pub fn find_witness(
    alloc: Global,
    coded: &Coded,
    p: StateId,
    q: StateId,
) -> Result<Option<Witness>, NoMemory>
    requires p { p < coded.now.graph.states }
    requires q { q < coded.now.graph.states }
    ensures { IfOk result (λ w. IsSourceOrNone coded.now (p, q) (option_map source_of w)) }
{
    let graph = coded.graph();
    let arcs = Arcs::OfInputs;
    let to_p = distances(alloc, graph, &arcs, p)?;
    let to_q = distances(alloc, graph, &arcs, q)?;
    let Some(source) = nearest(to_p.as_slice(), to_q.as_slice()) else {
        return Ok(None);
    };
    let first = walk_by(alloc, coded, &arcs, source, p, to_p.as_slice())?;
    let second = walk_by(alloc, coded, &arcs, source, q, to_q.as_slice())?;
    Ok(Some(Witness {
        source,
        first,
        second,
    }))
}
