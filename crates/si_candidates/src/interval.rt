//! Intervals: what can happen from some states on before an event.

ghost use Rattle.std.specs.Prelude.{◌≡◌, IfOk, length};
ghost use Rattle.si_candidates.specs.Interval.{IsInterval};

use si_base::ids::{Event, NoMemory};
use si_base::sets::StateSet;
use si_checks::proper::Proper;
use si_graph::closure::{Along, all_states, closure};
use std::alloc::Global;

/// The least set of states that has those of `from` and, with each of its states, those to which it
/// leads by another event than `stop`. It fails only where memory runs out.
pub fn interval(
    alloc: Global,
    graph: &Proper,
    from: &StateSet,
    stop: Event,
) -> Result<StateSet, NoMemory>
    requires { length from.now ≡ graph.now.graph.states }
    ensures { IfOk result (IsInterval graph.now.graph from.now stop) }
{
    let g = graph.coded().graph();
    let all = all_states(alloc, g.states())?;
    let set = closure(alloc, g, Along::OutWithout(stop), &all, from)?;
    Ok(set)
}
