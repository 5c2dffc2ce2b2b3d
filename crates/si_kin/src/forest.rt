//! Classes of states as trees: each state leads to one of its class that is no greater, the root of
//! a tree to itself.

ghost use Rattle.std.specs.Prelude.{◌≡◌, ℕ, ◌<◌, IfOk, length, slice_index};
ghost use Rattle.si_kin.specs.Loops.Forest.{AreOrdered, IsOnWay, IsSettledTo, Joins};

use si_base::ids::{NoMemory, StateId};
use std::alloc::Global;

/// Each state in a tree of its own. It fails only where memory runs out.
pub(crate) fn own_trees(alloc: Global, states: u32) -> Result<Vec<StateId>, NoMemory>
    ensures count { IfOk result (λ parents. length parents.items ≡ states) }
    ensures own { IfOk result (λ parents. (s : ℕ) → s < states
        → slice_index parents.items s ≡ s) }
{
    let mut parents = Vec::new(alloc);
    for s in 0..states {
        parents.push(StateId(s))?;
    }
    Ok(parents)
}

/// The root of the tree of a state. On the way each second state is moved up, so that later ways
/// are shorter.
fn root(parents: &mut [StateId], s: StateId) -> StateId
    requires within { s < length parents.old }
    requires order { AreOrdered parents.old }
    ensures root { slice_index parents.new result ≡ result }
    ensures way { IsOnWay parents.old s parents.new result }
{
    let mut at = s;
    while parents[at.0 as usize] != at {
        let parent = parents[at.0 as usize];
        let above = parents[parent.0 as usize];
        parents[at.0 as usize] = above;
        at = above;
    }
    at
}

/// Makes one tree of those of two states.
pub(crate) fn join(parents: &mut [StateId], s: StateId, t: StateId)
    requires one { s < length parents.old }
    requires other { t < length parents.old }
    requires order { AreOrdered parents.old }
    ensures { Joins parents.old s t parents.new }
{
    let one = root(parents, s);
    let other = root(parents, t);
    if one < other {
        parents[other.0 as usize] = one;
    } else {
        parents[one.0 as usize] = other;
    }
}

/// Lets each state lead to the root of its tree at once.
pub(crate) fn settle(parents: &mut [StateId])
    requires { AreOrdered parents.old }
    ensures { IsSettledTo parents.old (length parents.old) parents.new }
{
    for s in 0..parents.len() {
        let parent = parents[s];
        parents[s] = parents[parent.0 as usize];
    }
}
