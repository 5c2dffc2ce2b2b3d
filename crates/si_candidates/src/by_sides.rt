//! The only classes that a candidate can have, by the sides of its blocks.

ghost use Rattle.std.specs.Prelude.{◌≡◌, ℕ, ◌<◌, Bool, List, IfOk, IfSome, IfNone, length};
ghost use Rattle.si_base.specs.Sets.{IsIn, IsDisjoint};
ghost use Rattle.si_insert.specs.declared.partition.Class.{Class};
ghost use Rattle.si_insert.specs.Partition.{IsLawful, class_of};
ghost use Rattle.si_candidates.specs.Parts.{AreClasses, HaveNoClasses};
ghost use Rattle.si_candidates.specs.Loops.Sides.{AreSided, IsPartitionOfBlocks, side_classes};

use crate::sides::{class_by, differ, first_of, is_between};
use si_base::ids::{NoMemory, StateId};
use si_base::sets::StateSet;
use si_checks::proper::Proper;
use si_insert::partition::{Class, Partition};
use std::alloc::Global;
use std::marker::Model;

/// The classes of a candidate by the sides of its blocks: nothing is searched for them, and each is
/// told when it is asked for. Contracts see it as the list of the classes.
#[derive(Drop)]
pub struct SideClasses<'a> {
    plus: &'a StateSet,
    minus: &'a StateSet,
    plus_sides: &'a StateSet,
    minus_sides: &'a StateSet,
    /// Whether the new signal has the value 0 on the way to the states that lie on different sides
    /// of the two blocks.
    turn: bool,
}

impl<'a> Model for SideClasses<'a> {
    ghost use Rattle.std.specs.Prelude.{List};
    ghost use Rattle.si_insert.specs.declared.partition.Class.{Class};
    ghost use Rattle.si_candidates.specs.Loops.Sides.{AreOfOneSize, side_classes};

    ghost Value = { List Class };

    ghost view = { λ b. side_classes b.plus.now b.minus.now b.plus_sides.now b.minus_sides.now
        b.turn };

    ghost invariant = { λ b. AreOfOneSize b.plus.now b.minus.now b.plus_sides.now
        b.minus_sides.now };
}

impl<'a> SideClasses<'a> {
    /// The only classes that a lawful partition can have which is Rising in the one block and
    /// Falling in the other.
    pub fn new(
        graph: &Proper,
        plus: &'a StateSet,
        minus: &'a StateSet,
        plus_sides: &'a StateSet,
        minus_sides: &'a StateSet,
    ) -> SideClasses<'a>
        requires plus_size { length plus.now ≡ graph.now.graph.states }
        requires minus_size { length minus.now ≡ graph.now.graph.states }
        requires sided { AreSided graph.now.graph plus.now minus.now
            plus_sides.now minus_sides.now }
        requires some_plus { (s : ℕ) × IsIn plus.now s }
        ensures size { length result ≡ graph.now.graph.states }
        ensures told { (turn : Bool)
            × (result ≡ side_classes plus.now minus.now plus_sides.now minus_sides.now turn) }
        ensures only { (others : List Class)
            → IsPartitionOfBlocks graph.now.graph plus.now minus.now others → others ≡ result }
    {
        let _given = graph.coded().graph();
        let rising = first_of(plus);
        SideClasses {
            plus,
            minus,
            plus_sides,
            minus_sides,
            turn: is_between(plus_sides, minus_sides, rising),
        }
    }

    /// The class of the state.
    pub fn class(&self, s: StateId) -> Class
        requires { s < length self.now }
        ensures { result ≡ class_of self.now s }
    {
        let value = differ(self.turn, is_between(self.plus_sides, self.minus_sides, s));
        class_by(self.plus.has(s), self.minus.has(s), value)
    }

    /// The classes of all states, in state order. It fails only where memory runs out.
    fn list(&self, alloc: Global) -> Result<Vec<Class>, NoMemory>
        ensures { IfOk result (λ list. list.items ≡ self.now) }
    {
        let mut list = Vec::new(alloc);
        for k in 0..self.plus.size() {
            list.push(self.class(StateId(k)))?;
        }
        Ok(list)
    }
}

/// The partition where the new signal rises in the one block and falls in the other, or None where
/// the blocks have no classes. The parts between the blocks aren't searched for: the sides tell the
/// only classes that there can be, and those are asked whether they are lawful. It fails only where
/// memory runs out.
pub fn classes_by_sides(
    alloc: Global,
    graph: &Proper,
    plus: &StateSet,
    minus: &StateSet,
    plus_sides: &StateSet,
    minus_sides: &StateSet,
) -> Result<Option<Partition>, NoMemory>
    requires plus_size { length plus.now ≡ graph.now.graph.states }
    requires minus_size { length minus.now ≡ graph.now.graph.states }
    requires sided { AreSided graph.now.graph plus.now minus.now plus_sides.now minus_sides.now }
    requires some_plus { (s : ℕ) × IsIn plus.now s }
    requires some_minus { (s : ℕ) × IsIn minus.now s }
    requires disjoint { IsDisjoint plus.now minus.now }
    ensures classes { IfOk result
        (λ o. IfSome o (AreClasses graph.now.graph plus.now minus.now)) }
    ensures lawful { IfOk result (λ o. IfSome o (IsLawful graph.now.graph)) }
    ensures none { IfOk result
        (λ o. IfNone o (HaveNoClasses graph.now.graph plus.now minus.now)) }
{
    let _given = graph.coded().graph();
    let told = SideClasses::new(graph, plus, minus, plus_sides, minus_sides);
    let list = told.list(alloc)?;
    match Partition::lawful(graph, list) {
        Ok(partition) => Ok(Some(partition)),
        Err(_unlawful) => Ok(None),
    }
}
