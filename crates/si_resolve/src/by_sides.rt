//! The only classes that a candidate can have, for a count of conflicts.

ghost use Rattle.std.specs.Prelude.{◌≡◌, ℕ, List, length};
ghost use Rattle.si_base.specs.Sets.{IsIn};
ghost use Rattle.si_insert.specs.declared.partition.Class.{Class};
ghost use Rattle.si_candidates.specs.Loops.Sides.{AreSided, IsPartitionOfBlocks};

use si_base::ids::StateId;
use si_base::sets::StateSet;
use si_candidates::block::Block;
use si_candidates::by_sides::SideClasses;
use si_checks::proper::Proper;
use si_conflicts::classes::Classes;
use si_insert::partition::Class;
use std::marker::Model;

/// The classes of a candidate by the sides of its blocks: nothing is searched for them, and none is
/// written down. Contracts see it as the list of the classes.
#[derive(Drop)]
pub(crate) struct BySides<'a> {
    classes: SideClasses<'a>,
}

impl<'a> Model for BySides<'a> {
    ghost use Rattle.std.specs.Prelude.{List};
    ghost use Rattle.si_insert.specs.declared.partition.Class.{Class};

    ghost Value = { List Class };

    ghost view = { λ b. b.classes };
}

impl<'a> BySides<'a> {
    /// The only classes that a lawful partition can have which is Rising in the one block and
    /// Falling in the other.
    pub(crate) fn new(
        graph: &Proper,
        plus: &'a Block,
        minus: &'a Block,
        plus_sides: &'a StateSet,
        minus_sides: &'a StateSet,
    ) -> BySides<'a>
        requires plus_size { length plus.now ≡ graph.now.graph.states }
        requires minus_size { length minus.now ≡ graph.now.graph.states }
        requires sided { AreSided graph.now.graph plus.now minus.now
            plus_sides.now minus_sides.now }
        requires some_plus { (s : ℕ) × IsIn plus.now s }
        ensures size { length result ≡ graph.now.graph.states }
        ensures only { (others : List Class)
            → IsPartitionOfBlocks graph.now.graph plus.now minus.now others → others ≡ result }
    {
        let classes = SideClasses::new(graph, plus.set(), minus.set(), plus_sides, minus_sides);
        BySides { classes }
    }
}

impl Classes for BySides<'_> {
    ghost classes = { λ list. list };

    fn class(&self, s: StateId) -> Class {
        self.classes.class(s)
    }
}
