//! The states of each code in a ring.

ghost use Rattle.std.specs.Prelude.{◌≡◌, ℕ, ◌<◌, IfOk, Some, None};
ghost use Rattle.std.specs.BTreeMap.{get};
ghost use Rattle.std.specs.Ordering.{nat_cmp};
ghost use Rattle.si_base.specs.Codes.{code};
ghost use Rattle.si_conflicts.specs.Loops.Chains.{AreRings};
ghost use Rattle.si_conflicts.specs.Loops.Links.{IsFirstOfCode};

use crate::links::{link, next_equals, put_first};
use si_base::ids::{Code, NoMemory, StateId};
use si_graph::coded::Coded;
use std::alloc::Global;
use std::collections::BTreeMap;

/// For each state the next of its ring. It fails only where memory runs out.
pub fn rings(alloc: Global, coded: &Coded) -> Result<Vec<StateId>, NoMemory>
    ensures { IfOk result (λ next. AreRings coded.now next.items) }
{
    let equals = next_equals(alloc, coded)?;
    let firsts = first_states(alloc, coded)?;
    let states = coded.graph().states();
    let mut next: Vec<StateId> = Vec::new(alloc);
    for k in 0..states {
        let s = StateId(k);
        let first = firsts.get(&coded.code(s)).copied();
        next.push(next_in_ring(s, link(&equals, s), first))?;
    }
    Ok(next)
}

/// The first state of each code.
fn first_states(alloc: Global, coded: &Coded) -> Result<BTreeMap<Code, StateId>, NoMemory>
    ensures { IfOk result (λ firsts. (k : ℕ) → IsFirstOfCode coded.now 0 k (get nat_cmp firsts k)) }
{
    let graph = coded.graph();
    let states = graph.states();
    let mut firsts: BTreeMap<Code, StateId> = BTreeMap::new(alloc);
    for s in (0..states).rev() {
        let code = coded.code(StateId(s));
        put_first(&mut firsts, code, StateId(s))?;
    }
    Ok(firsts)
}

/// The next state of a ring: the next later one of the code, or else the first.
fn next_in_ring(s: StateId, later: Option<StateId>, first: Option<StateId>) -> StateId
    ensures later { (t : ℕ) → later ≡ Some t → result ≡ t }
    ensures first { (t : ℕ) → later ≡ None → first ≡ Some t → result ≡ t }
{
    later.or(first).unwrap_or(s)
}
