//! Codes that many states share.

ghost use Rattle.std.specs.Prelude.{◌≡◌, ℕ, ◌<◌, ◌≤◌, All, IfOk, IfSome, IfNone, Contains};
ghost use Rattle.std.specs.Prelude.{false, length, slice_index_or};
ghost use Rattle.std.specs.BTreeMap.{get};
ghost use Rattle.std.specs.Map.{count_at};
ghost use Rattle.std.specs.Ordering.{nat_cmp};
ghost use Rattle.si_base.specs.Limits.{max_states};
ghost use Rattle.si_base.specs.Sets.{IsIn};
ghost use Rattle.si_conflicts.specs.Loops.Crowds.{code_count, crowded_of};

use crate::members::Member;
use si_base::ids::{Code, NoMemory, StateId};
use si_base::sets::StateSet;
use std::alloc::Global;
use std::collections::BTreeMap;

/// A code that several states share, and how many.
#[derive(Clone, Copy, PartialEq, Eq, Debug)]
pub struct Crowd {
    pub code: Code,
    pub states: u32,
}

/// A state, with the crowd that it is of.
#[derive(Clone, Copy, PartialEq, Eq, Debug)]
pub struct Crowded {
    pub state: StateId,
    pub crowd: Crowd,
}

/// The members whose code at least so many have, in their order. It fails only where memory runs
/// out.
pub(crate) fn crowded_members(
    alloc: Global,
    members: &[Member],
    least: u64,
) -> Result<Vec<Crowded>, NoMemory>
    requires { length members.now ≤ max_states }
    ensures { IfOk result (λ crowded. crowded.items ≡ crowded_of members.now least) }
{
    let sizes = sizes(alloc, members)?;
    let mut crowded: Vec<Crowded> = Vec::new(alloc);
    for m in members {
        let code = m.key.code;
        let states = sizes.get(&code).copied().unwrap_or(0);
        if states as u64 >= least {
            crowded.push(Crowded {
                state: m.state,
                crowd: Crowd { code, states },
            })?;
        }
    }
    Ok(crowded)
}

/// How many members have each code.
fn sizes(alloc: Global, members: &[Member]) -> Result<BTreeMap<Code, u32>, NoMemory>
    requires { length members.now ≤ max_states }
    ensures { IfOk result
        (λ sizes. (q : ℕ) → count_at (get nat_cmp sizes) q ≡ code_count members.now q) }
{
    let mut sizes: BTreeMap<Code, u32> = BTreeMap::new(alloc);
    for m in members {
        let before = sizes.get(&m.key.code).copied().unwrap_or(0);
        sizes.insert(m.key.code, before + 1)?;
    }
    Ok(sizes)
}

/// The crowd of the first of these states that is in the set, if one is.
pub fn crowd_in(crowded: &[Crowded], set: &StateSet) -> Option<Crowd>
    requires { All (λ x. x.state < length set.now) crowded.now }
    ensures some { IfSome result (λ crowd. (x : Crowded) × Contains crowded.now x
        × IsIn set.now x.state × (crowd ≡ x.crowd)) }
    ensures none { IfNone result
        (All (λ x. slice_index_or set.now x.state false ≡ false) crowded.now) }
{
    for x in crowded {
        if set.has(x.state) {
            return Some(x.crowd);
        }
    }
    None
}
