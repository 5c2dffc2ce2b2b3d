//! States that folding would merge.

ghost use Rattle.std.specs.Prelude.{◌≡◌, ◌<◌, IfOk, length, slice_index};
ghost use Rattle.si_conflicts.specs.Conflicts.{pairs_of};
ghost use Rattle.si_fold.specs.Alike.{IsLeastAlike};
ghost use Rattle.si_fold.specs.Folded.{AreClasses};
ghost use Rattle.si_told.specs.All.{AreAll};
ghost use Rattle.si_lint.specs.Findings.{IsMerged, merged_place};

use si_base::ids::{NoMemory, StateId};
use si_checks::proper::Proper;
use si_conflicts::conflicts::Pair;
use si_fold::fold::{Folded, fold};
use si_graph::coded::Coded;
use std::alloc::Global;

/// The states that folding doesn't keep, in state order, each behind the state that stands for it.
/// It fails only where memory runs out.
pub(crate) fn merged(alloc: Global, graph: &Proper) -> Result<Vec<Pair>, NoMemory>
    ensures { IfOk result
        (λ found. AreAll merged_place (IsMerged graph.now) (pairs_of found.items)) }
{
    let Folded { kept, class, .. } = fold(alloc, graph)?;
    merged_by(alloc, graph.coded(), kept.as_slice(), class.as_slice())
}

/// The same, by the classes of alike states.
fn merged_by(
    alloc: Global,
    coded: &Coded,
    kept: &[StateId],
    class: &[StateId],
) -> Result<Vec<Pair>, NoMemory>
    requires { AreClasses coded.now kept.now class.now }
    ensures { IfOk result
        (λ found. AreAll merged_place (IsMerged coded.now) (pairs_of found.items)) }
{
    let graph = coded.graph();
    let states = graph.states();
    let mut found: Vec<Pair> = Vec::new(alloc);
    for k in 0..states {
        let q = StateId(k);
        let p = kept_for(coded, kept, class, q);
        if p != q {
            found.push(Pair { p, q })?;
        }
    }
    Ok(found)
}

/// The state that stands for a state in the folded graph.
fn kept_for(coded: &Coded, kept: &[StateId], class: &[StateId], s: StateId) -> StateId
    requires state { s < coded.now.graph.states }
    requires classes { AreClasses coded.now kept.now class.now }
    ensures { IsLeastAlike coded.now s result }
{
    let _given = coded.graph();
    let place = state_at(class, s);
    state_at(kept, place)
}

/// The state at a place.
fn state_at(states: &[StateId], place: StateId) -> StateId
    requires { place < length states.now }
    ensures { result ≡ slice_index states.now place }
{
    states[place.0 as usize]
}
