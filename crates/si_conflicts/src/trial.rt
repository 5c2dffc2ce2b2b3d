//! The conflicts that an insertion would leave, counted without making it.

ghost use Rattle.std.specs.Prelude.{◌≡◌, ◌+◌, ◌*◌, ◌<◌, ◌≤◌, ℕ, ◌↔◌, All, IfOk, OnOk};
ghost use Rattle.std.specs.Prelude.{IsTrue, List, length};
ghost use Rattle.si_base.specs.Limits.{max_states};
ghost use Rattle.si_base.specs.Graph.{IsNonInput};
ghost use Rattle.si_insert.specs.Partition.{class_of};
ghost use Rattle.si_conflicts.specs.Loops.Apart as Apart;
ghost use Rattle.si_conflicts.specs.Loops.Apart.{AreStaying, AllStaying, pair_sum};
ghost use Rattle.si_conflicts.specs.Loops.Turns.{AreTurns, HaveMembers};

use crate::classes::Classes;
use crate::count::count_clashes;
use crate::keys::Key;
use crate::members::Member;
use crate::tally::{Role, Tally};
use crate::turns::Turn;
use si_base::graph::Edge;
use si_base::ids::{Code, NoMemory, StateId};
use si_graph::graph::Graph;
use si_insert::partition::Class;
use std::alloc::Global;

/// How many pairs of copies are a conflict that the new signal shows, or the others where it is
/// stable. It ends as soon as they are `bar`.
pub fn count_stable<C: Classes>(turns: &[Turn], classes: &C, bar: u64) -> u64
    requires members { HaveMembers turns.now }
    requires within { All (λ t. t.state < length (C.classes classes.now)) turns.now }
    ensures all { result < bar → (members : List Member) → AreTurns members turns.now
        → result ≡ pair_sum (Apart.stable_count (C.classes classes.now)) members }
    ensures more { bar ≤ result → (members : List Member) → AreTurns members turns.now
        → bar ≤ pair_sum (Apart.stable_count (C.classes classes.now)) members }
    ensures few { result ≤ 2 * max_states * max_states }
{
    let mut low = Tally::none();
    let mut high = Tally::none();
    let mut total: u64 = 0;
    for turn in turns {
        let class = classes.class(turn.state);
        let at_low = Role::of(class, false);
        let at_high = Role::of(class, true);
        low = low.for_change(turn.change);
        high = high.for_change(turn.change);
        total += low.conflicts(at_low) as u64 + high.conflicts(at_high) as u64;
        if total >= bar {
            return total;
        }
        low = low.with(at_low);
        high = high.with(at_high);
    }
    total
}

/// How many pairs of copies at which the new signal may switch are a conflict. Afterwards nothing
/// of what `scratch` holds matters. It fails only where memory runs out.
pub fn count_switching(
    alloc: Global,
    scratch: &mut Vec<Key>,
    graph: &Graph,
    classes: &[Class],
    members: &[Member],
) -> Result<u64, NoMemory>
    requires few { length members.now ≤ max_states }
    requires within { All (λ m. m.state < graph.now.states) members.now }
    requires count { length classes.now ≡ graph.now.states }
    ensures count { IfOk result (λ n.
        (staying : ℕ → ℕ) → AllStaying graph.now classes.now staying
        → n ≡ Apart.switching_count classes.now staying members.now) }
    ensures few { IfOk result (λ n. n ≤ 2 * max_states * max_states) }
{
    switching_keys(scratch, graph, classes, members, false)?;
    let low = count_clashes(alloc, scratch.as_slice())?;
    switching_keys(scratch, graph, classes, members, true)?;
    let high = count_clashes(alloc, scratch.as_slice())?;
    Ok(low + high)
}

/// Replaces the keys by those of the copies, at the value, at which the new signal may switch.
fn switching_keys(
    keys: &mut Vec<Key>,
    graph: &Graph,
    classes: &[Class],
    members: &[Member],
    value: bool,
) -> Result<(), NoMemory>
    requires within { All (λ m. m.state < graph.now.states) members.now }
    requires count { length classes.now ≡ graph.now.states }
    ensures keys { OnOk result
        ((staying : ℕ → ℕ) → AllStaying graph.now classes.now staying
        → keys.new.items ≡ Apart.switching_keys classes.now staying value members.now) }
    ensures few { OnOk result (length keys.new.items ≤ length members.now) }
{
    keys.clear();
    for m in members {
        if Role::of(classes[m.state.0 as usize], value).is_switching() {
            keys.push(Key {
                code: m.key.code,
                excited: staying(graph, classes, m.state),
            })?;
        }
    }
    Ok(())
}

/// The signals whose non-input events lead from the state to states of its class.
fn staying(graph: &Graph, classes: &[Class], s: StateId) -> Code
    requires state { s < graph.now.states }
    requires count { length classes.now ≡ graph.now.states }
    ensures { AreStaying graph.now classes.now s result }
{
    let mut staying = Code(0);
    for arc in graph.arcs_out(s) {
        if stays(graph, classes, *arc) {
            staying = staying.set(arc.event.sig, true);
        }
    }
    staying
}

/// Whether the arc is of a non-input and leads to a state of the same class.
fn stays(graph: &Graph, classes: &[Class], arc: Edge) -> bool
    requires from { arc.from < length classes.now }
    requires to { arc.to < length classes.now }
    requires signal { arc.event.sig < length graph.now.signals }
    ensures { IsTrue result ↔ (IsNonInput graph.now.signals arc.event.sig
        × (class_of classes.now arc.to ≡ class_of classes.now arc.from)) }
{
    classes[arc.to.0 as usize] == classes[arc.from.0 as usize] && graph.is_driven(arc.event.sig)
}
