//! States of one class and one code.

ghost use Rattle.std.specs.Prelude.{◌≡◌, ◌≢◌, IfOk, OnOk, Some, length, unwrap_or};
ghost use Rattle.std.specs.BTreeMap.{get};
ghost use Rattle.si_kin.specs.Loops.Alike.{AreFirstAlike, likeness_cmp};
ghost use Rattle.si_kin.specs.declared.alike.Likeness.{Likeness};

use si_base::ids::{Code, NoMemory, StateId};
use si_graph::coded::Coded;
use std::alloc::Global;
use std::collections::BTreeMap;

/// What states of one class and one code have in common.
#[derive(Clone, Copy, PartialEq, Eq, PartialOrd, Ord, Debug)]
struct Likeness {
    class: StateId,
    code: Code,
}

/// For each state the first of its class and its code. It fails only where memory runs out.
pub(crate) fn first_alike(
    alloc: Global,
    coded: &Coded,
    classes: &[StateId],
) -> Result<Vec<StateId>, NoMemory>
    requires { length classes.now ≡ coded.now.graph.states }
    ensures { IfOk result (λ firsts. AreFirstAlike coded.now classes.now firsts.items) }
{
    let states = coded.graph().states();
    let mut firsts = Vec::new(alloc);
    let mut known: BTreeMap<Likeness, StateId> = BTreeMap::new(alloc);
    for k in 0..states {
        let s = StateId(k);
        let likeness = Likeness {
            class: classes[k as usize],
            code: coded.code(s),
        };
        let first = first_with(&mut known, likeness, s)?;
        firsts.push(first)?;
    }
    Ok(firsts)
}

/// The state that stands at the likeness. If none does, `s` is put there.
fn first_with(
    known: &mut BTreeMap<Likeness, StateId>,
    likeness: Likeness,
    s: StateId,
) -> Result<StateId, NoMemory>
    ensures found { IfOk result (λ t. t ≡ unwrap_or (get likeness_cmp known.old likeness) s) }
    ensures there { IfOk result (λ t. get likeness_cmp known.new likeness ≡ Some t) }
    ensures others { OnOk result ((k : Likeness) → k ≢ likeness
        → get likeness_cmp known.new k ≡ get likeness_cmp known.old k) }
{
    Ok(*known.entry(likeness)?.or_insert(s))
}
