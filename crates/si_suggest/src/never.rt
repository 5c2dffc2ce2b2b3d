//! The first conflict of which it is known that no insertions resolve it.

ghost use Rattle.std.specs.Prelude.{◌≡◌, ◌<◌, IfOk};
ghost use Rattle.si_conflicts.specs.Conflicts.{AreFirstConflicts, pairs_of};
ghost use Rattle.si_suggest.specs.Never.{IsFirstNeverOrNone, NeverIsNeverResolved, max_looked_at};
ghost use Rattle.si_walks.specs.Twins.{max_twin_states};

use si_base::ids::{NoMemory, StateId};
use si_conflicts::conflicts::{Pair, conflicts};
use si_graph::coded::Coded;
use si_walks::twin_pairs::{first_twin_conflict, twin_pairs};
use si_walks::witness::find_witness;
use std::alloc::Global;

/// How many conflicts of a graph that has too many states for all pairs of them are looked at.
const MAX_LOOKED_AT: u32 = 1000;

/// The first conflict of which it is known that no insertions resolve it: in a graph of up to 2,048
/// states the first whose states are twins, and of the first 1,000 conflicts of a larger one the
/// first to both states of which input events alone lead from one state. It fails only where memory
/// runs out.
pub fn first_never(alloc: Global, coded: &Coded) -> Result<Option<(StateId, StateId)>, NoMemory>
    ensures { IfOk result (IsFirstNeverOrNone coded.now) }
{
    let twins = twin_pairs(alloc, coded)?;
    if twins.is_some() {
        return Ok(first_twin_conflict(coded, &twins));
    }
    let pairs = conflicts(alloc, coded, MAX_LOOKED_AT)?;
    first_joined(alloc, coded, &pairs)
}

/// The first of the conflicts to both states of which input events alone lead from one state.
fn first_joined(
    alloc: Global,
    coded: &Coded,
    pairs: &[Pair],
) -> Result<Option<(StateId, StateId)>, NoMemory>
    requires many { max_twin_states < coded.now.graph.states }
    requires pairs { AreFirstConflicts coded.now max_looked_at (pairs_of pairs.now) }
    ensures { IfOk result (IsFirstNeverOrNone coded.now) }
{
    for pair in pairs {
        let witness = find_witness(alloc, coded, pair.p, pair.q)?;
        if witness.is_some() {
            return Ok(Some((pair.p, pair.q)));
        }
    }
    Ok(None)
}

/// A law, whose function does nothing: no insertions resolve such a conflict.
pub fn never_is_never_resolved()
    ensures { NeverIsNeverResolved }
{}
