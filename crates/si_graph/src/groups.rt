//! Arcs in groups by their sources, so that few have to be compared to put all in order.

ghost use Rattle.std.specs.Prelude.{◌<◌, ◌^◌, All, IfOk, OnOk, length};
ghost use Rattle.si_graph.specs.Loops.Ends.{AreChained};
ghost use Rattle.si_graph.specs.Loops.Groups.{AreOrdered, HaveSameArcs, IsGroup};
ghost use Rattle.si_graph.specs.declared.chain.End.TheVariants.{Source};

use crate::chain::{Chain, End};
use si_base::graph::Edge;
use si_base::ids::{NoMemory, StateId};
use std::alloc::Global;

/// The same arcs in order, each once. Those that aren't are grouped by source first: groups go by
/// sources, and each is in order, so that to sort all of them takes one pass. It fails only where
/// memory runs out.
pub(crate) fn in_order(alloc: Global, states: u32, arcs: Vec<Edge>) -> Result<Vec<Edge>, NoMemory>
    requires few { length arcs.items < 2 ^ 32 }
    requires within { All (λ a. a.from < states) arcs.items }
    ensures { IfOk result (λ ordered. AreOrdered arcs.items ordered.items) }
{
    if arcs.is_sorted_by(|a, b| *a < *b) {
        return Ok(arcs);
    }
    let mut ordered = all_groups(alloc, states, arcs.as_slice())?;
    ordered.sort_unstable();
    ordered.dedup();
    Ok(ordered)
}

/// The groups of all states.
fn all_groups(alloc: Global, states: u32, arcs: &[Edge]) -> Result<Vec<Edge>, NoMemory>
    requires few { length arcs.now < 2 ^ 32 }
    requires within { All (λ a. a.from < states) arcs.now }
    ensures { IfOk result (λ groups. HaveSameArcs groups.items arcs.now) }
{
    let chain = Chain::of_arcs(alloc, states, arcs, End::Source)?;
    let mut groups = Vec::with_capacity(alloc, arcs.len())?;
    let mut group = Vec::new(alloc);
    for s in 0..states {
        take_group(&mut group, arcs, &chain, StateId(s))?;
        groups.extend_from_slice(group.as_slice())?;
    }
    Ok(groups)
}

/// Puts the arcs out of a state, in order, in the place of those in the group.
fn take_group(
    group: &mut Vec<Edge>,
    arcs: &[Edge],
    chain: &Chain,
    s: StateId,
) -> Result<(), NoMemory>
    requires few { length arcs.now < 2 ^ 32 }
    requires state { s < length chain.now.heads.items }
    requires chained { AreChained Source (length chain.now.heads.items) arcs.now chain.now }
    ensures { OnOk result (IsGroup arcs.now s group.new.items) }
{
    group.clear();
    let mut k = chain.head(s) as usize;
    while k < arcs.len() {
        group.push(arcs[k])?;
        k = chain.next(k as u32) as usize;
    }
    group.sort_unstable();
    Ok(())
}
