//! The sets of states that words of a part name in the composed graph.

ghost use Rattle.std.specs.Prelude.{◌≡◌, ◌↔◌, ℕ, ◌<◌, ◌≤◌, List, Contains, IfOk, IsTrue, length};
ghost use Rattle.si_joins.specs.Lifted as lifted;
ghost use Rattle.si_joins.specs.Lifted.{own_word};

use crate::view::PartView;
use si_base::ids::{NoMemory, StateId};
use si_base::names::Names;
use si_base::sets::StateSet;
use si_base::text_key::TextKey;
use si_insert::lineage::Lineage;
use si_netlist::name_list::NameList;
use std::alloc::Global;

/// The states of the current graph for which the part has one of the words.
pub(crate) fn lifted_set(
    alloc: Global,
    key: TextKey,
    view: &PartView,
    lineage: &Lineage,
    words: &NameList,
) -> Result<StateSet, NoMemory>
    requires named { length view.now.names ≡ lineage.now.given.graph.states }
    requires before { view.now.before ≤ length lineage.now.trace }
    ensures { IfOk result (λ set. set ≡ lifted.lifted_set view.now lineage.now words.now) }
{
    let known = word_table(alloc, key, words)?;
    let size = lineage.current().coded().graph().states();
    let mut set = StateSet::new(alloc, size)?;
    for s in 0..size {
        let inside = is_known(alloc, view, lineage, StateId(s), &known)?;
        if inside {
            set.add(StateId(s));
        }
    }
    Ok(set)
}

/// The words, each once, for quick searches.
fn word_table(alloc: Global, key: TextKey, words: &NameList) -> Result<Names, NoMemory>
    ensures { IfOk result (λ known. (w : List ℕ) → Contains known w ↔ Contains words.now w) }
{
    let mut known = Names::with_key(alloc, key);
    for k in 0..words.len() {
        let Ok(_) = known.add(words.get(k), u32::MAX) else {
            return Err(NoMemory);
        };
    }
    Ok(known)
}

/// Whether the part's word for the state is known.
fn is_known(
    alloc: Global,
    view: &PartView,
    lineage: &Lineage,
    s: StateId,
    known: &Names,
) -> Result<bool, NoMemory>
    requires named { length view.now.names ≡ lineage.now.given.graph.states }
    requires before { view.now.before ≤ length lineage.now.trace }
    requires within { s < lineage.now.current.coded.graph.states }
    ensures { IfOk result
        (λ is. IsTrue is ↔ Contains known.now (own_word view.now lineage.now s)) }
{
    let word = view.own_word(alloc, lineage, s)?;
    match known.place(word.bytes()) {
        Some(_) => Ok(true),
        None => Ok(false),
    }
}
