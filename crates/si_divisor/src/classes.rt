//! The classes of the states, by the sets of states that settle and of those that switch.

ghost use Rattle.std.specs.Prelude.{◌≡◌, ℕ, ◌<◌, ◌↔◌, IfOk, IfErr, MatchOption, IsTrue, length};
ghost use Rattle.std.specs.Prelude.{slice_index_or, false};
ghost use Rattle.si_base.specs.Order.{IsFirst};
ghost use Rattle.si_base.specs.Codes.{IsDeterministic};
ghost use Rattle.si_base.specs.Graph.{IsGraph};
ghost use Rattle.si_closures.specs.Loops.WordSearch.{column};
ghost use Rattle.si_insert.specs.Partition.{class_of};
ghost use Rattle.si_divisor.specs.Loops.ManyFunctions.{AreSettledWords};
ghost use Rattle.si_divisor.specs.Targets.{forced_in};
ghost use Rattle.si_divisor.specs.PartitionFor.{LeavesAt, HasSome, class_for, IsPartitionFor};
ghost use Rattle.si_divisor.specs.PartitionFor.{state_place, ShowsNone};

use crate::fault::NoPartition;
use crate::function_sets::SettledWords;
use crate::settled::{first_settled_at_both, first_unforced};
use crate::switching::switching_alone;
use si_base::ids::{NoMemory, StateId};
use si_base::sets::StateSet;
use si_closures::words::set_at;
use si_graph::graph::Graph;
use si_insert::partition::Class;
use std::alloc::Global;

/// Whether the new signal would switch at the state, where the value isn't forced.
fn leaves_at(up: &StateSet, down: &StateSet, plus: &StateSet, minus: &StateSet, s: StateId) -> bool
    requires up { s < length up.now }
    requires down { s < length down.now }
    requires plus { s < length plus.now }
    requires minus { s < length minus.now }
    ensures { IsTrue result ↔ LeavesAt (forced_in up.now down.now) plus.now minus.now s }
{
    plus.has(s) && !up.has(s) || minus.has(s) && !down.has(s)
}

/// The first state where the new signal would switch and the value isn't forced.
fn first_leaving(
    up: &StateSet,
    down: &StateSet,
    plus: &StateSet,
    minus: &StateSet,
) -> Option<StateId>
    requires up { length up.now ≡ length plus.now }
    requires down { length down.now ≡ length plus.now }
    requires minus { length minus.now ≡ length plus.now }
    ensures { MatchOption result ((t : ℕ)
        → LeavesAt (forced_in up.now down.now) plus.now minus.now t
        → ⊥) (IsFirst state_place (LeavesAt (forced_in up.now down.now) plus.now minus.now)) }
{
    for s in 0..plus.size() {
        if leaves_at(up, down, plus, minus, StateId(s)) {
            return Some(StateId(s));
        }
    }
    None
}

/// Whether the set has a state.
fn has_some(set: &StateSet) -> bool
    ensures { IsTrue result ↔ HasSome set.now }
{
    for s in 0..set.size() {
        if set.has(StateId(s)) {
            return true;
        }
    }
    false
}

/// The class of a state by the sets that have it.
pub(crate) fn class_at(plus: bool, minus: bool, one: bool) -> Class
    ensures { result ≡ class_for plus minus one }
{
    if plus {
        return Class::Rising;
    }
    if minus {
        return Class::Falling;
    }
    if one { Class::High } else { Class::Low }
}

/// The class of each state by the sets that have it.
pub(crate) fn class_list(
    alloc: Global,
    plus: &StateSet,
    minus: &StateSet,
    ones: &StateSet,
) -> Result<Vec<Class>, NoMemory>
    requires minus { length minus.now ≡ length plus.now }
    requires ones { length ones.now ≡ length plus.now }
    ensures size { IfOk result (λ v. length v.items ≡ length plus.now) }
    ensures each { IfOk result (λ v. (s : ℕ) → s < length plus.now
        → class_of v.items s ≡ class_for (slice_index_or plus.now s false)
        (slice_index_or minus.now s false) (slice_index_or ones.now s false)) }
{
    let mut out = Vec::new(alloc);
    for s in 0..plus.size() {
        out.push(class_at(
            plus.has(StateId(s)),
            minus.has(StateId(s)),
            ones.has(StateId(s)),
        ))?;
    }
    Ok(out)
}

/// The classes of the states for the first of the functions, by what it forces and where states
/// settle for it, or the first reason why there are none.
pub(crate) fn classes_for(
    alloc: Global,
    graph: &Graph,
    words: &SettledWords,
) -> Result<Vec<Class>, NoPartition>
    requires graph { IsGraph graph.now }
    requires deterministic { IsDeterministic graph.now }
    requires words { AreSettledWords graph.now words.now }
    ensures partition { IfOk result (λ v. IsPartitionFor graph.now
        (forced_in (column 0 words.now.up.items) (column 0 words.now.down.items)) v.items) }
    ensures fault { IfErr result (ShowsNone graph.now
        (forced_in (column 0 words.now.up.items) (column 0 words.now.down.items))) }
{
    let up = set_at(alloc, &words.up, graph.states(), 0)?;
    let down = set_at(alloc, &words.down, graph.states(), 0)?;
    let ones = set_at(alloc, &words.ones, graph.states(), 0)?;
    let zeros = set_at(alloc, &words.zeros, graph.states(), 0)?;
    if let Some(s) = first_unforced(graph, &ones, &zeros) {
        return Err(NoPartition::Unforced { s });
    }
    if let Some(s) = first_settled_at_both(&ones, &zeros) {
        return Err(NoPartition::Contradiction { s });
    }
    let plus = switching_alone(alloc, graph, &words.ones)?;
    let minus = switching_alone(alloc, graph, &words.zeros)?;
    if let Some(s) = first_leaving(&up, &down, &plus, &minus) {
        return Err(NoPartition::LeavesForced { s });
    }
    if !has_some(&plus) {
        return Err(NoPartition::Constant);
    }
    if !has_some(&minus) {
        return Err(NoPartition::Constant);
    }
    let list = class_list(alloc, &plus, &minus, &ones)?;
    Ok(list)
}
