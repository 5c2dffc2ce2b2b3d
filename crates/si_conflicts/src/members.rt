//! The states that share their code with others, by their keys.

ghost use Rattle.std.specs.Prelude.{◌≡◌, ◌<◌, All, IfOk, length, map};
ghost use Rattle.si_conflicts.specs.Loops.Chains.{AreMembers, with_equals};
ghost use Rattle.si_conflicts.specs.Loops.Keys.{IsKey};

use crate::keys::{Key, state_key};
use si_base::ids::{NoMemory, StateId};
use si_graph::coded::Coded;
use std::alloc::Global;

/// A state, with its key. Members are ordered by their keys, then by state.
#[derive(Clone, Copy, PartialEq, Eq, PartialOrd, Ord, Debug)]
pub struct Member {
    pub key: Key,
    pub state: StateId,
}

/// The states whose rings have two states or more, those of one key side by side. It fails only
/// where memory runs out.
pub fn members(alloc: Global, coded: &Coded, next: &[StateId]) -> Result<Vec<Member>, NoMemory>
    requires { length next.now ≡ coded.now.graph.states }
    ensures { IfOk result (λ members. AreMembers coded.now next.now members.items) }
{
    let mut members = in_state_order(alloc, coded, next)?;
    members.sort_unstable();
    Ok(members)
}

/// The same in state order.
fn in_state_order(alloc: Global, coded: &Coded, next: &[StateId]) -> Result<Vec<Member>, NoMemory>
    requires { length next.now ≡ coded.now.graph.states }
    ensures states { IfOk result (λ members.
        map (λ m. m.state) members.items ≡ with_equals next.now coded.now.graph.states) }
    ensures within { IfOk result (λ members.
        All (λ m. m.state < coded.now.graph.states) members.items) }
    ensures keys { IfOk result (λ members. All (λ m. IsKey coded.now m.state m.key) members.items) }
{
    let states = coded.graph().states();
    let mut members: Vec<Member> = Vec::new(alloc);
    for k in 0..states {
        let state = StateId(k);
        if next[k as usize] != state {
            members.push(Member {
                key: state_key(coded, state),
                state,
            })?;
        }
    }
    Ok(members)
}
