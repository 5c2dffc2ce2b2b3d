//! The first states that settle at neither value, or at both.

ghost use Rattle.std.specs.Prelude.{◌≡◌, ℕ, ◌<◌, ◌↔◌, IsTrue, MatchOption, length};
ghost use Rattle.std.specs.Prelude.{slice_index_or, false};
ghost use Rattle.si_base.specs.Order.{IsFirst};
ghost use Rattle.si_divisor.specs.Targets.{SettlesAtBoth, IsUnforced};
ghost use Rattle.si_divisor.specs.PartitionFor.{state_place};

use si_base::ids::StateId;
use si_base::sets::StateSet;
use si_graph::graph::Graph;

/// Whether the state is in neither set.
fn in_neither(x: &StateSet, y: &StateSet, s: StateId) -> bool
    requires x { s < length x.now }
    requires y { s < length y.now }
    ensures { IsTrue result
        ↔ ((slice_index_or x.now s false ≡ false) × (slice_index_or y.now s false ≡ false)) }
{
    !x.has(s) && !y.has(s)
}

/// The first state that settles at neither value.
pub(crate) fn first_unforced(graph: &Graph, ones: &StateSet, zeros: &StateSet) -> Option<StateId>
    requires ones { length ones.now ≡ graph.now.states }
    requires zeros { length zeros.now ≡ graph.now.states }
    ensures { MatchOption result ((t : ℕ) → IsUnforced graph.now ones.now zeros.now t → ⊥)
        (IsFirst state_place (IsUnforced graph.now ones.now zeros.now)) }
{
    for s in 0..graph.states() {
        if in_neither(ones, zeros, StateId(s)) {
            return Some(StateId(s));
        }
    }
    None
}

/// Whether the state is in both sets.
fn in_both(x: &StateSet, y: &StateSet, s: StateId) -> bool
    requires x { s < length x.now }
    requires y { s < length y.now }
    ensures { IsTrue result ↔ SettlesAtBoth x.now y.now s }
{
    x.has(s) && y.has(s)
}

/// The first state that settles at both values.
pub(crate) fn first_settled_at_both(ones: &StateSet, zeros: &StateSet) -> Option<StateId>
    requires { length zeros.now ≡ length ones.now }
    ensures { MatchOption result ((t : ℕ) → SettlesAtBoth ones.now zeros.now t → ⊥)
        (IsFirst state_place (SettlesAtBoth ones.now zeros.now)) }
{
    for s in 0..ones.size() {
        if in_both(ones, zeros, StateId(s)) {
            return Some(StateId(s));
        }
    }
    None
}
