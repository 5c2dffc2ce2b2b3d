//! The classes of a candidate.

ghost use Rattle.std.specs.Prelude.{◌≡◌, ℕ, ◌<◌, ◌↔◌, ◌∷◌, [], IfOk, IfErr, IsTrue, MatchOption};
ghost use Rattle.std.specs.Prelude.{length};
ghost use Rattle.si_base.specs.Order.{IsFirst};
ghost use Rattle.si_base.specs.Sets.{IsDisjoint, IsIn};
ghost use Rattle.si_insert.specs.Partition.{IsLawful};
ghost use Rattle.si_candidates.specs.Parts.{AreClasses, ShowsNoClasses};
ghost use Rattle.si_candidates.specs.Loops.Sides.{classes_by};

use crate::parts::{high_states, states_outside};
use crate::sides::class_by;
use si_base::ids::{NoMemory, StateId};
use si_base::sets::StateSet;
use si_checks::proper::Proper;
use si_insert::partition::{Class, Partition};
use std::alloc::Global;

/// Why two blocks have no classes.
#[derive(Clone, Copy, PartialEq, Eq, Debug)]
pub enum ClassFault {
    /// Want of memory.
    NoMemory,
    /// The part of the state is both High and Low.
    NoClasses { s: StateId },
}

impl From<NoMemory> for ClassFault {
    ghost use Rattle.std.specs.Prelude.{◌≡◌};
    ghost use Rattle.si_candidates.specs.declared.classes.ClassFault.TheVariants.{NoMemory};

    ghost from_gives = { λ _ e. e ≡ NoMemory };

    fn from(_e: NoMemory) -> ClassFault {
        ClassFault::NoMemory
    }
}

/// The partition where the new signal rises in the one block and falls in the other, or the least
/// state of all parts that are both High and Low.
pub fn classes(
    alloc: Global,
    graph: &Proper,
    plus: &StateSet,
    minus: &StateSet,
) -> Result<Partition, ClassFault>
    requires plus_size { length plus.now ≡ graph.now.graph.states }
    requires minus_size { length minus.now ≡ graph.now.graph.states }
    requires some_plus { (s : ℕ) × IsIn plus.now s }
    requires some_minus { (s : ℕ) × IsIn minus.now s }
    requires disjoint { IsDisjoint plus.now minus.now }
    ensures classes { IfOk result (AreClasses graph.now.graph plus.now minus.now) }
    ensures lawful { IfOk result (IsLawful graph.now.graph) }
    ensures fault { IfErr result (ShowsNoClasses graph.now.graph plus.now minus.now) }
{
    let g = graph.coded().graph();
    let others = states_outside(alloc, g, plus, minus)?;
    let high = high_states(alloc, g, &others, plus, minus)?;
    let low = high_states(alloc, g, &others, minus, plus)?;
    if let Some(s) = first_in_both(&high, &low) {
        return Err(ClassFault::NoClasses { s });
    }
    let list = class_list(alloc, plus, minus, &high)?;
    Ok(Partition::known(graph, list))
}

/// The first state that is in both sets.
fn first_in_both(one: &StateSet, other: &StateSet) -> Option<StateId>
    requires { length other.now ≡ length one.now }
    ensures { MatchOption result (IsDisjoint one.now other.now)
        (IsFirst (λ s. s ∷ []) (λ s. IsIn one.now s × IsIn other.now s)) }
{
    for k in 0..one.size() {
        if is_in_both(one, other, StateId(k)) {
            return Some(StateId(k));
        }
    }
    None
}

/// Whether the state is in both sets.
fn is_in_both(one: &StateSet, other: &StateSet, s: StateId) -> bool
    requires one { s < length one.now }
    requires other { s < length other.now }
    ensures { IsTrue result ↔ (IsIn one.now s × IsIn other.now s) }
{
    one.has(s) && other.has(s)
}

/// The classes of the states by the two blocks and by the states of the High parts.
fn class_list(
    alloc: Global,
    plus: &StateSet,
    minus: &StateSet,
    high: &StateSet,
) -> Result<Vec<Class>, NoMemory>
    requires minus { length minus.now ≡ length plus.now }
    requires high { length high.now ≡ length plus.now }
    ensures { IfOk result (λ list. list.items ≡ classes_by plus.now minus.now high.now) }
{
    let mut list = Vec::new(alloc);
    for k in 0..plus.size() {
        let s = StateId(k);
        list.push(class_by(plus.has(s), minus.has(s), high.has(s)))?;
    }
    Ok(list)
}
