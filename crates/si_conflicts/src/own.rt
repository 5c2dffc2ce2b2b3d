//! The conflicts that a set of states has of its own, where a new signal may switch in it.

ghost use Rattle.std.specs.Prelude.{◌≡◌, ℕ, ◌*◌, ◌<◌, ◌≤◌, ◌↔◌, All, IfOk, OnOk, IsTrue, length};
ghost use Rattle.si_base.specs.Graph.{IsNonInput};
ghost use Rattle.si_base.specs.Limits.{max_states};
ghost use Rattle.si_base.specs.Sets.{IsIn};
ghost use Rattle.si_conflicts.specs.Loops.Own as Own;
ghost use Rattle.si_conflicts.specs.Loops.Own.{AllStayingIn, AreStayingIn, HasOwnConflicts};

use crate::count::count_clashes;
use crate::keys::Key;
use crate::members::Member;
use si_base::graph::Edge;
use si_base::ids::{Code, NoMemory, StateId};
use si_base::sets::StateSet;
use si_graph::graph::Graph;
use std::alloc::Global;

/// How many pairs of states of the set have equal codes, while other non-inputs lead from them to
/// states of the set. Afterwards nothing of what `scratch` holds matters. It fails only where
/// memory runs out.
pub fn count_own(
    alloc: Global,
    scratch: &mut Vec<Key>,
    graph: &Graph,
    set: &StateSet,
    members: &[Member],
) -> Result<u64, NoMemory>
    requires few { length members.now ≤ max_states }
    requires within { All (λ m. m.state < graph.now.states) members.now }
    requires size { length set.now ≡ graph.now.states }
    ensures own { IfOk result (HasOwnConflicts graph.now members.now set.now) }
    ensures few { IfOk result (λ n. n ≤ max_states * max_states) }
{
    own_keys(scratch, graph, set, members)?;
    count_clashes(alloc, scratch.as_slice())
}

/// Replaces the keys by those of the set's members, with the signals that stay within the set.
fn own_keys(
    keys: &mut Vec<Key>,
    graph: &Graph,
    set: &StateSet,
    members: &[Member],
) -> Result<(), NoMemory>
    requires within { All (λ m. m.state < graph.now.states) members.now }
    requires size { length set.now ≡ graph.now.states }
    ensures keys { OnOk result ((staying : ℕ → ℕ) → AllStayingIn graph.now set.now staying
        → keys.new.items ≡ Own.own_keys set.now staying members.now) }
    ensures few { OnOk result (length keys.new.items ≤ length members.now) }
{
    keys.clear();
    for m in members {
        if set.has(m.state) {
            keys.push(Key {
                code: m.key.code,
                excited: staying_in(graph, set, m.state),
            })?;
        }
    }
    Ok(())
}

/// The signals whose non-input events lead from the state to states of the set.
fn staying_in(graph: &Graph, set: &StateSet, s: StateId) -> Code
    requires state { s < graph.now.states }
    requires size { length set.now ≡ graph.now.states }
    ensures { AreStayingIn graph.now set.now s result }
{
    let mut staying = Code(0);
    for arc in graph.arcs_out(s) {
        if leads_into(graph, set, *arc) {
            staying = staying.set(arc.event.sig, true);
        }
    }
    staying
}

/// Whether the arc is of a non-input and leads to a state of the set.
fn leads_into(graph: &Graph, set: &StateSet, arc: Edge) -> bool
    requires to { arc.to < length set.now }
    requires signal { arc.event.sig < length graph.now.signals }
    ensures { IsTrue result ↔ (IsNonInput graph.now.signals arc.event.sig × IsIn set.now arc.to) }
{
    set.has(arc.to) && graph.is_driven(arc.event.sig)
}
