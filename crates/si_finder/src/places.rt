//! The states of a lineage's current graph, each by its origin and its code.

ghost use Rattle.std.specs.Prelude.{◌≡◌, Contains, IfOk, MatchOption, Some, slice_get};
ghost use Rattle.si_finder.specs.Loops.Places.{key_state, stands};

use indexmap::IndexSet;
use si_base::ids::{NoMemory, StateId};
use si_base::text_key::TextKey;
use si_insert::lineage::Lineage;
use si_reached::state::Reached;
use std::alloc::Global;
use std::marker::Model;

/// An origin and a code by their numbers, which a table can look up.
#[derive(Clone, Copy, PartialEq, Eq, Hash, Debug)]
struct Key {
    state: u32,
    values: u128,
}

/// The states of a current graph in their order. Contracts see each as the state of the circuit
/// whose values are its code, beside its origin.
#[derive(Drop)]
pub(crate) struct Places {
    set: IndexSet<Key, TextKey>,
}

impl Model for Places {
    ghost use Rattle.std.specs.Prelude.{List, map, length, ◌≤◌};
    ghost use Rattle.si_base.specs.Limits.{max_states};
    ghost use Rattle.si_finder.specs.Loops.Places.{key_state};
    ghost use Rattle.si_reached.specs.declared.state.Reached.{Reached};

    ghost Value = { List Reached };

    ghost view = { λ p. map key_state p.set.keys };

    ghost invariant = { λ p. length p.set.keys ≤ max_states };
}

/// The numbers of a state of the circuit.
fn key_of(x: &Reached) -> Key
    ensures { key_state result ≡ x.now }
{
    Key {
        state: x.state.0,
        values: x.values.0,
    }
}

impl Places {
    /// Those of the lineage's current graph. It fails only where memory runs out.
    pub(crate) fn of(alloc: Global, key: TextKey, lineage: &Lineage) -> Result<Places, NoMemory>
        ensures { IfOk result (λ p. p ≡ stands lineage.now.current) }
    {
        let current = lineage.current().coded();
        let mut set = IndexSet::with_hasher(alloc, key);
        for s in 0..current.graph().states() {
            let k = StateId(s);
            set.insert(key_of(&Reached {
                state: lineage.origin(k),
                values: current.code(k),
            }))?;
        }
        Ok(Places { set })
    }

    /// The place of the state with that origin and code.
    pub(crate) fn place(&self, x: &Reached) -> Option<StateId>
        ensures { MatchOption result (Contains self.now x.now → ⊥)
            (λ s. slice_get self.now s ≡ Some x.now) }
    {
        let key = key_of(x);
        match self.set.get_index_of(&key) {
            Some(k) => Some(StateId(k as u32)),
            None => None,
        }
    }
}
