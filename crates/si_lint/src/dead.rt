//! The states without arcs.

ghost use Rattle.std.specs.Prelude.{IfOk};
ghost use Rattle.si_carried.specs.Lint.{IsDeadState};
ghost use Rattle.si_told.specs.All.{AreAll, number_place};

use si_base::ids::{NoMemory, StateId};
use si_graph::graph::Graph;
use std::alloc::Global;

/// The states without arcs, in state order. It fails only where memory runs out.
pub(crate) fn dead(alloc: Global, graph: &Graph) -> Result<Vec<StateId>, NoMemory>
    ensures { IfOk result (λ found. AreAll number_place (IsDeadState graph.now) found.items) }
{
    let mut found: Vec<StateId> = Vec::new(alloc);
    for k in 0..graph.states() {
        let arcs = graph.arcs_out(StateId(k));
        if arcs.is_empty() {
            found.push(StateId(k))?;
        }
    }
    Ok(found)
}
