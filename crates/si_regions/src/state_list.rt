//! Sets of states as lists, for sets that are small beside the graph.

ghost use Rattle.std.specs.Prelude.{◌≡◌, ℕ, ◌↔◌, Contains};
ghost use Rattle.std.specs.List.Sorted.{IsStrictlySortedBy};
ghost use Rattle.std.specs.Ordering.{nat_cmp};

use si_base::ids::StateId;
use std::marker::Model;

/// A set of states, as the list of its states in order. It takes memory for these alone, whatever
/// the size of the graph.
#[derive(Drop)]
pub struct StateList {
    states: Vec<StateId>,
}

impl Model for StateList {
    ghost use Rattle.std.specs.Prelude.{List, ℕ};
    ghost use Rattle.std.specs.List.Sorted.{IsStrictlySortedBy};
    ghost use Rattle.std.specs.Ordering.{nat_cmp};

    ghost Value = { List ℕ };

    ghost view = { λ list. list.states.items };

    ghost invariant = { λ list. IsStrictlySortedBy nat_cmp list.states.items };
}

impl StateList {
    /// The set of these states.
    pub fn of(states: Vec<StateId>) -> StateList
        ensures states { (t : ℕ) → Contains result t ↔ Contains states.items t }
        ensures in_order { IsStrictlySortedBy nat_cmp result }
    {
        let mut states = states;
        states.sort_unstable();
        states.dedup();
        StateList { states }
    }

    /// The states in order.
    pub fn as_slice(&self) -> &[StateId]
        ensures states { result.now ≡ self.now }
        ensures in_order { IsStrictlySortedBy nat_cmp self.now }
    {
        self.states.as_slice()
    }
}
