//! The classes of states that have one code too, numbered by their first states.

ghost use Rattle.std.specs.Prelude.{◌≡◌, ◌≢◌, ◌≤◌, ◌++◌, ◌∷◌, [], IfOk, OnOk, Some, length};
ghost use Rattle.std.specs.Prelude.{unwrap_or};
ghost use Rattle.std.specs.BTreeMap.{get};
ghost use Rattle.si_fold.specs.Folded.{AreClasses};
ghost use Rattle.si_fold.specs.Loops.Numbered.{key_cmp};
ghost use Rattle.si_fold.specs.Loops.Partition.{shape};
ghost use Rattle.si_fold.specs.Loops.Refined.{AreRefined};
ghost use Rattle.si_fold.specs.declared.numbering.Key.{Key};

use crate::partition::Partition;
use si_base::ids::{Code, NoMemory, StateId};
use si_graph::coded::Coded;
use std::alloc::Global;
use std::collections::BTreeMap;

/// What states that are alike have in common.
#[derive(Clone, Copy, PartialEq, Eq, PartialOrd, Ord, Debug)]
pub(crate) struct Key {
    class: u32,
    code: Code,
}

/// The first states of the classes in order, and for each state the place of its class there.
#[derive(Drop)]
pub(crate) struct Numbering {
    pub(crate) kept: Vec<StateId>,
    pub(crate) class: Vec<StateId>,
}

/// The numbering of the classes of alike states, which lie in the classes that steps keep: the
/// states of one such class with one code. It fails only where memory runs out.
pub(crate) fn numbered(
    alloc: Global,
    coded: &Coded,
    states: &Partition,
) -> Result<Numbering, NoMemory>
    requires { AreRefined coded.now.graph (shape states.now) }
    ensures classes { IfOk result (λ n. AreClasses coded.now n.kept.items n.class.items) }
    ensures few { IfOk result (λ n. length n.kept.items ≤ coded.now.graph.states) }
{
    let graph = coded.graph();
    let mut kept = Vec::new(alloc);
    let mut class = Vec::new(alloc);
    let mut places: BTreeMap<Key, StateId> = BTreeMap::new(alloc);
    for k in 0..graph.states() {
        let key = Key {
            class: states.class(k),
            code: coded.code(StateId(k)),
        };
        let new = StateId(kept.len() as u32);
        let place = place_of(&mut places, key, new)?;
        keep_if_new(&mut kept, place, StateId(k))?;
        class.push(place)?;
    }
    Ok(Numbering { kept, class })
}

/// The place that stands at the key. If none does, the new one is put there.
fn place_of(
    places: &mut BTreeMap<Key, StateId>,
    key: Key,
    new: StateId,
) -> Result<StateId, NoMemory>
    ensures found { IfOk result (λ p. p ≡ unwrap_or (get key_cmp places.old key) new) }
    ensures there { IfOk result (λ p. get key_cmp places.new key ≡ Some p) }
    ensures others { OnOk result
        ((k : Key) → k ≢ key → get key_cmp places.new k ≡ get key_cmp places.old k) }
{
    Ok(*places.entry(key)?.or_insert(new))
}

/// Puts the state last, if the place is behind all that are kept.
fn keep_if_new(kept: &mut Vec<StateId>, place: StateId, s: StateId) -> Result<(), NoMemory>
    ensures new { OnOk result
        (place ≡ length kept.old.items → kept.new.items ≡ kept.old.items ++ s ∷ []) }
    ensures old { OnOk result
        (place ≢ length kept.old.items → kept.new.items ≡ kept.old.items) }
{
    if place.0 as usize == kept.len() {
        kept.push(s)?;
    }
    Ok(())
}
