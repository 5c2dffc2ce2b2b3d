//! What is red in a picture beside arcs: states, and lines between the states of conflicts.

ghost use Rattle.std.specs.Prelude.{IfOk};
ghost use Rattle.si_conflicts.specs.Conflicts.{pairs_of};
ghost use Rattle.si_pictures.specs.Loops.Red.{AreBreachMarks, AreLines, AreRed};

use crate::conflict_states::states_in_conflict;
use crate::seen::{Breach, Seen, is_breach_state};
use si_base::ids::{NoMemory, StateId};
use si_conflicts::conflicts::{Pair, conflicts};
use std::alloc::Global;

/// How many conflicts have a line at most.
const MAX_LINES: u32 = 1000;

/// For each state whether it is red: in a conflict, or that of the first breach. It fails only
/// where memory runs out.
pub(crate) fn red_states(alloc: Global, seen: &Seen) -> Result<Vec<bool>, NoMemory>
    ensures { IfOk result (λ marks. AreRed seen.now marks.items) }
{
    match seen {
        Seen::Proper(proper) => states_in_conflict(alloc, proper.coded()),
        Seen::Coded(coded, breach) => breach_states(alloc, coded.graph().states(), breach),
        Seen::Uncoded(graph, breach) => breach_states(alloc, graph.states(), breach),
    }
}

/// For each of so many states whether the breach shows at it.
fn breach_states(alloc: Global, states: u32, breach: &Breach) -> Result<Vec<bool>, NoMemory>
    ensures { IfOk result (λ marks. AreBreachMarks states breach.now marks.items) }
{
    let mut marks: Vec<bool> = Vec::new(alloc);
    for k in 0..states {
        marks.push(is_breach_state(breach, StateId(k)))?;
    }
    Ok(marks)
}

/// The conflicts that have a line: of a proper graph the first in order, of another none. It fails
/// only where memory runs out.
pub(crate) fn lines(alloc: Global, seen: &Seen) -> Result<Vec<Pair>, NoMemory>
    ensures { IfOk result (λ pairs. AreLines seen.now (pairs_of pairs.items)) }
{
    match seen {
        Seen::Proper(proper) => conflicts(alloc, proper.coded(), MAX_LINES),
        Seen::Coded(..) => Ok(Vec::new(alloc)),
        Seen::Uncoded(..) => Ok(Vec::new(alloc)),
    }
}
