//! The parts between two blocks, by the one list of work.

ghost use Rattle.std.specs.Prelude.{◌≡◌, ℕ, ◌<◌, ◌↔◌, IfOk, OnOk, IsTrue, length};
ghost use Rattle.si_base.specs.Sets.{IsIn};
ghost use Rattle.si_graph.specs.Closure.{IsNext};
ghost use Rattle.si_graph.specs.Loops.Reach.{MarksAll};
ghost use Rattle.si_regions.specs.Loops.Searching.{AreMarksOf};
ghost use Rattle.si_candidates.specs.Parts.{IsHigh, IsOther};

use si_base::ids::{NoMemory, StateId};
use si_base::sets::StateSet;
use si_graph::closure::Along;
use si_graph::graph::Graph;
use si_graph::search::Search;
use std::alloc::Global;

/// The states in neither block. It fails only where memory runs out.
pub(crate) fn states_outside(
    alloc: Global,
    graph: &Graph,
    plus: &StateSet,
    minus: &StateSet,
) -> Result<StateSet, NoMemory>
    requires plus_size { length plus.now ≡ graph.now.states }
    requires minus_size { length minus.now ≡ graph.now.states }
    ensures { IfOk result (AreMarksOf graph.now (IsOther graph.now plus.now minus.now)) }
{
    let mut set = StateSet::new(alloc, graph.states())?;
    for k in 0..graph.states() {
        if is_outside(plus, minus, StateId(k)) {
            set.add(StateId(k));
        }
    }
    Ok(set)
}

/// Whether the state is in neither set.
fn is_outside(plus: &StateSet, minus: &StateSet, s: StateId) -> bool
    requires plus { s < length plus.now }
    requires minus { s < length minus.now }
    ensures { IsTrue result ↔ ((IsIn plus.now s → ⊥) × (IsIn minus.now s → ⊥)) }
{
    !plus.has(s) && !minus.has(s)
}

/// The states of the High parts, where the new signal rises in the one block and falls in the
/// other, and these are the states in neither; the parts that are Low, too, are among the High
/// ones. It fails only where memory runs out.
///
/// The search begins in the states that a Rising state enters and in those that lead into a Falling
/// one.
pub(crate) fn high_states(
    alloc: Global,
    graph: &Graph,
    others: &StateSet,
    plus: &StateSet,
    minus: &StateSet,
) -> Result<StateSet, NoMemory>
    requires others { AreMarksOf graph.now (IsOther graph.now plus.now minus.now) others.now }
    requires plus_size { length plus.now ≡ graph.now.states }
    requires minus_size { length minus.now ≡ graph.now.states }
    ensures { IfOk result (AreMarksOf graph.now (IsHigh graph.now plus.now minus.now)) }
{
    let mut search = Search::new(alloc, graph.states())?;
    follow_each(graph, &Along::Out, others, plus, &mut search)?;
    follow_each(graph, &Along::In, others, minus, &mut search)?;
    while let Some(s) = search.next_work() {
        search.follow(graph, &Along::Both, others, s)?;
    }
    Ok(search.into_marks())
}

/// Reaches the states of `within` beside those of the set.
fn follow_each(
    graph: &Graph,
    along: &Along,
    within: &StateSet,
    set: &StateSet,
    search: &mut Search,
) -> Result<(), NoMemory>
    requires within { length within.now ≡ graph.now.states }
    requires set { length set.now ≡ graph.now.states }
    requires size { length search.old.marks ≡ graph.now.states }
    ensures { OnOk result
        (MarksAll (λ t. (s : ℕ) × IsIn set.now s × IsNext graph.now along.now within.now s t)
        search.old.marks search.old.work search.new.marks search.new.work) }
{
    for k in 0..set.size() {
        if set.has(StateId(k)) {
            search.follow(graph, along, within, StateId(k))?;
        }
    }
    Ok(())
}
