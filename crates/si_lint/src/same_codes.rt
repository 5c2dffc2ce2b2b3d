//! States of equal code that are no conflict.

ghost use Rattle.std.specs.Prelude.{◌≡◌, ◌↔◌, ◌<◌, IfOk, IsTrue, length};
ghost use Rattle.si_base.specs.Proper.{pair_place};
ghost use Rattle.si_carried.specs.Lint.{IsSameCode};
ghost use Rattle.si_conflicts.specs.Loops.Chains.{AreChains};
ghost use Rattle.si_conflicts.specs.Conflicts.{pairs_of};
ghost use Rattle.si_conflicts.specs.Loops.Keys.{AreKeys, key_at};
ghost use Rattle.si_told.specs.All.{AreAll};

use si_base::ids::{NoMemory, StateId};
use si_checks::proper::Proper;
use si_conflicts::chains::CodeChains;
use si_conflicts::conflicts::Pair;
use si_conflicts::keys::{Key, key_of, keys};
use si_graph::coded::Coded;
use std::alloc::Global;

/// The states with the next state of their code, where the two are no conflict, in state order. It
/// fails only where memory runs out.
pub(crate) fn same_codes(alloc: Global, graph: &Proper) -> Result<Vec<Pair>, NoMemory>
    ensures { IfOk result
        (λ found. AreAll pair_place (IsSameCode graph.now) (pairs_of found.items)) }
{
    let chains = CodeChains::new(alloc, graph)?;
    let coded = graph.coded();
    let keys = keys(alloc, coded)?;
    pairs_by(alloc, coded, &chains, keys.as_slice())
}

/// The same, by the rings of states of one code and by their keys.
fn pairs_by(
    alloc: Global,
    coded: &Coded,
    chains: &CodeChains,
    keys: &[Key],
) -> Result<Vec<Pair>, NoMemory>
    requires chains { AreChains coded.now chains.now }
    requires keys { AreKeys coded.now keys.now }
    ensures { IfOk result
        (λ found. AreAll pair_place (IsSameCode coded.now) (pairs_of found.items)) }
{
    let graph = coded.graph();
    let states = graph.states();
    let mut found: Vec<Pair> = Vec::new(alloc);
    for k in 0..states {
        let p = StateId(k);
        let q = chains.next_equal(p);
        if is_same(keys, p, q) {
            found.push(Pair { p, q })?;
        }
    }
    Ok(found)
}

/// Whether `q` is a later state, and enables events of the same driven signals.
fn is_same(keys: &[Key], p: StateId, q: StateId) -> bool
    requires p { p < length keys.now }
    requires q { q < length keys.now }
    ensures { IsTrue result
        ↔ ((p < q) × ((key_at keys.now p).excited ≡ (key_at keys.now q).excited)) }
{
    q > p && key_of(keys, p).excited == key_of(keys, q).excited
}
