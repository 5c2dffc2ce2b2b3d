//! The states of conflicts.

ghost use Rattle.std.specs.Prelude.{◌<◌, IfOk};
ghost use Rattle.std.specs.BTreeMap.{get};
ghost use Rattle.std.specs.Ordering.{nat_cmp};
ghost use Rattle.si_conflicts.specs.Loops.Keys.{AreKeys};
ghost use Rattle.si_pictures.specs.InConflict.{AreMarks};
ghost use Rattle.si_pictures.specs.Loops.Representatives.{AreByCode, AreRepresentatives, AreMixed};

use si_base::ids::{Code, NoMemory, StateId};
use si_conflicts::keys::{Key, key_of, keys};
use si_graph::coded::Coded;
use std::alloc::Global;
use std::collections::BTreeMap;

/// For each state whether it and some other one are a conflict. It fails only where memory runs
/// out.
///
/// A state is in a conflict just where its code has states that differ in the non-input events
/// that they enable, since it then differs from one of any two that do.
pub fn states_in_conflict(alloc: Global, graph: &Coded) -> Result<Vec<bool>, NoMemory>
    ensures { IfOk result (λ marks. AreMarks graph.now marks.items) }
{
    let keys = keys(alloc, graph)?;
    let chosen = representatives(alloc, graph)?;
    let mixed = mixed_codes(alloc, graph, keys.as_slice(), chosen.as_slice())?;
    let mut marks: Vec<bool> = Vec::new(alloc);
    for k in 0..graph.graph().states() {
        let chosen = chosen[k as usize];
        marks.push(mixed[chosen.0 as usize])?;
    }
    Ok(marks)
}

/// For each state one of its code: the same for all states of a code.
fn representatives(alloc: Global, graph: &Coded) -> Result<Vec<StateId>, NoMemory>
    ensures { IfOk result (λ chosen. AreRepresentatives graph.now chosen.items) }
{
    let lasts = last_states(alloc, graph)?;
    let mut chosen: Vec<StateId> = Vec::new(alloc);
    for k in 0..graph.graph().states() {
        let s = StateId(k);
        let last = lasts.get(&graph.code(s)).copied();
        chosen.push(last.unwrap_or(s))?;
    }
    Ok(chosen)
}

/// A state of each code.
fn last_states(alloc: Global, graph: &Coded) -> Result<BTreeMap<Code, StateId>, NoMemory>
    ensures { IfOk result
        (λ lasts. AreByCode graph.now graph.now.graph.states (get nat_cmp lasts)) }
{
    let mut lasts: BTreeMap<Code, StateId> = BTreeMap::new(alloc);
    for k in 0..graph.graph().states() {
        let s = StateId(k);
        lasts.insert(graph.code(s), s)?;
    }
    Ok(lasts)
}

/// For each representative whether a state of its code enables other non-input events than it.
fn mixed_codes(
    alloc: Global,
    graph: &Coded,
    keys: &[Key],
    chosen: &[StateId],
) -> Result<Vec<bool>, NoMemory>
    requires keys { AreKeys graph.now keys.now }
    requires chosen { AreRepresentatives graph.now chosen.now }
    ensures { IfOk result (λ mixed. AreMixed keys.now chosen.now mixed.items) }
{
    let states = graph.graph().states();
    let mut mixed: Vec<bool> = vec![in alloc; false; states as usize]?;
    for k in 0..states {
        let s = StateId(k);
        let r = chosen[k as usize];
        if key_of(keys, s).excited != key_of(keys, r).excited {
            mixed[r.0 as usize] = true;
        }
    }
    Ok(mixed)
}
