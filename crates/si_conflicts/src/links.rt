//! States of equal code, and states in conflict, linked.

ghost use Rattle.std.specs.Prelude.{◌≡◌, ◌≢◌, ℕ, ◌+◌, ◌<◌, IfOk, OnOk, IfSome, Some, None, length};
ghost use Rattle.std.specs.Prelude.{slice_index_or};
ghost use Rattle.std.specs.BTreeMap.{get};
ghost use Rattle.std.specs.Ordering.{nat_cmp};
ghost use Rattle.si_base.specs.Codes.{code};
ghost use Rattle.si_base.specs.Proper.{IsConflict};
ghost use Rattle.si_conflicts.specs.Loops.Keys.{AreKeys};
ghost use Rattle.si_conflicts.specs.Loops.Links.{AreNextEquals, AreNextClashes, IsFirstOfCode};
ghost use Rattle.si_conflicts.specs.Loops.Links.{IsFirstClash, HasNextClash};

use crate::keys::{Key, key_of};
use si_base::ids::{Code, NoMemory, StateId};
use si_graph::coded::Coded;
use std::alloc::Global;
use std::collections::BTreeMap;

/// For each state the next later state of its code. It fails only where memory runs out.
pub fn next_equals(alloc: Global, coded: &Coded) -> Result<Vec<Option<StateId>>, NoMemory>
    ensures { IfOk result (λ next. AreNextEquals coded.now next.items) }
{
    let graph = coded.graph();
    let states = graph.states();
    let mut next: Vec<Option<StateId>> = vec![in alloc; None; states as usize]?;
    let mut firsts: BTreeMap<Code, StateId> = BTreeMap::new(alloc);
    for s in (0..states).rev() {
        let code = coded.code(StateId(s));
        let later = put_first(&mut firsts, code, StateId(s))?;
        next[s as usize] = later;
    }
    Ok(next)
}

/// Puts the state at the code, and answers the one that stood there.
pub fn put_first(
    firsts: &mut BTreeMap<Code, StateId>,
    code: Code,
    s: StateId,
) -> Result<Option<StateId>, NoMemory>
    ensures found { IfOk result (λ old. old ≡ get nat_cmp firsts.old code) }
    ensures there { OnOk result (get nat_cmp firsts.new code ≡ Some s) }
    ensures others { OnOk result
        ((k : ℕ) → k ≢ code → get nat_cmp firsts.new k ≡ get nat_cmp firsts.old k) }
{
    let old = firsts.insert(code, s)?;
    Ok(old)
}

/// For each state the next later state with which it is in conflict. It fails only where memory
/// runs out.
pub fn next_clashes(
    alloc: Global,
    coded: &Coded,
    keys: &[Key],
    equals: &[Option<StateId>],
) -> Result<Vec<Option<StateId>>, NoMemory>
    requires keys { AreKeys coded.now keys.now }
    requires equals { AreNextEquals coded.now equals.now }
    ensures { IfOk result (λ next. AreNextClashes coded.now next.items) }
{
    let graph = coded.graph();
    let states = graph.states();
    let mut next: Vec<Option<StateId>> = vec![in alloc; None; states as usize]?;
    for k in (0..states).rev() {
        let s = StateId(k);
        let clash = first_clash(coded, keys, &next, s, link(equals, s));
        next[k as usize] = clash;
    }
    Ok(next)
}

/// The first state from `equal` on with which `s` is in conflict, where `equal` is a later state of
/// its code: that one, or the first with which that one is, if it enables just what `s` does.
fn first_clash(
    coded: &Coded,
    keys: &[Key],
    next: &[Option<StateId>],
    s: StateId,
    equal: Option<StateId>,
) -> Option<StateId>
    requires state { s < coded.now.graph.states }
    requires keys { AreKeys coded.now keys.now }
    requires count { length next.now ≡ coded.now.graph.states }
    requires equal { IfSome equal (λ t. (s < t) × (t < coded.now.graph.states)
        × (code coded.now t ≡ code coded.now s) × HasNextClash coded.now next.now t) }
    ensures { (low : ℕ) → s < low → IsFirstOfCode coded.now low (code coded.now s) equal
        → IsFirstClash coded.now s low result }
{
    let _graph = coded.graph();
    let Some(t) = equal else {
        return None;
    };
    if key_of(keys, t).excited != key_of(keys, s).excited {
        return Some(t);
    }
    link(next, t)
}

/// The next state after `q` with which `p` is in conflict, as it is with `q`.
pub fn clash_after(
    coded: &Coded,
    keys: &[Key],
    equals: &[Option<StateId>],
    clashes: &[Option<StateId>],
    p: StateId,
    q: StateId,
) -> Option<StateId>
    requires keys { AreKeys coded.now keys.now }
    requires equals { AreNextEquals coded.now equals.now }
    requires clashes { AreNextClashes coded.now clashes.now }
    requires conflict { IsConflict coded.now (p, q) }
    ensures { IsFirstClash coded.now p (q + 1) result }
{
    first_clash(coded, keys, clashes, p, link(equals, q))
}

/// The link of a state.
pub fn link(links: &[Option<StateId>], s: StateId) -> Option<StateId>
    requires { s < length links.now }
    ensures { result ≡ slice_index_or links.now s None }
{
    links[s.0 as usize]
}
