//! All conflicts of a coded graph, and their number.

ghost use Rattle.std.specs.Prelude.{◌+◌, ◌<◌, IfOk, OnOk, length};
ghost use Rattle.si_conflicts.specs.Conflicts.{HasConflicts, AreFirstConflicts, pairs_of};
ghost use Rattle.si_conflicts.specs.Loops.Keys.{AreKeys};
ghost use Rattle.si_conflicts.specs.Loops.Links.{AreNextEquals, AreNextClashes};
ghost use Rattle.si_conflicts.specs.Loops.Search.{AreBelow, AreFoundTo};

use crate::count::count_clashes;
use crate::keys::{Key, keys};
use crate::links::{clash_after, link, next_clashes, next_equals};
use si_base::ids::{NoMemory, StateId};
use si_graph::coded::Coded;
use std::alloc::Global;

/// Two states of one code that enable different non-input events, the earlier first.
#[derive(Clone, Copy, PartialEq, Eq, Debug)]
pub struct Pair {
    pub p: StateId,
    pub q: StateId,
}

/// The first `limit` conflicts in order, or all. It fails only where memory runs out.
pub fn conflicts(alloc: Global, graph: &Coded, limit: u32) -> Result<Vec<Pair>, NoMemory>
    ensures { IfOk result (λ pairs. AreFirstConflicts graph.now limit (pairs_of pairs.items)) }
{
    let keys = keys(alloc, graph)?;
    let equals = next_equals(alloc, graph)?;
    let clashes = next_clashes(alloc, graph, &keys, &equals)?;
    let mut pairs: Vec<Pair> = Vec::new(alloc);
    for s in 0..graph.graph().states() {
        if pairs.len() as u64 >= limit as u64 {
            return Ok(pairs);
        }
        add_conflicts(
            graph,
            &keys,
            &equals,
            &clashes,
            StateId(s),
            limit,
            &mut pairs,
        )?;
    }
    Ok(pairs)
}

/// Puts the conflicts of a state with later ones last, or as many of them as make `limit`.
fn add_conflicts(
    graph: &Coded,
    keys: &[Key],
    equals: &[Option<StateId>],
    clashes: &[Option<StateId>],
    p: StateId,
    limit: u32,
    pairs: &mut Vec<Pair>,
) -> Result<(), NoMemory>
    requires keys { AreKeys graph.now keys.now }
    requires equals { AreNextEquals graph.now equals.now }
    requires clashes { AreNextClashes graph.now clashes.now }
    requires state { p < graph.now.graph.states }
    requires before { AreBelow graph.now p 0 (pairs_of pairs.old.items) }
    requires few { length pairs.old.items < limit }
    ensures after { OnOk result
        (AreFoundTo graph.now (p + 1) 0 limit (pairs_of pairs.new.items)) }
{
    let mut at = link(clashes, p);
    while let Some(q) = at {
        pairs.push(Pair { p, q })?;
        if pairs.len() as u64 >= limit as u64 {
            return Ok(());
        }
        at = clash_after(graph, keys, equals, clashes, p, q);
    }
    Ok(())
}

/// The number of all conflicts. It fails only where memory runs out.
pub fn count(alloc: Global, graph: &Coded) -> Result<u64, NoMemory>
    ensures { IfOk result (HasConflicts graph.now) }
{
    let _graph = graph.graph();
    let keys = keys(alloc, graph)?;
    let n = count_clashes(alloc, keys.as_slice())?;
    Ok(n)
}
