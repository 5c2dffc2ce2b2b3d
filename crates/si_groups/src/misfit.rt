//! Why parts don't work together.

ghost use Rattle.std.specs.Prelude.{◌≡◌, IfOk};

use si_base::ids::NoMemory;
use si_base::text::Name;
use si_composing::clash::Clash;
use si_composing::tuples::Tuple;
use std::alloc::Global;
use std::marker::Model;

/// A group of parts, by their numbers in order.
#[derive(Drop)]
pub struct Group {
    numbers: Vec<u32>,
}

impl Model for Group {
    ghost use Rattle.std.specs.Prelude.{List, ℕ};

    ghost Value = { List ℕ };

    ghost view = { λ g. g.numbers.items };
}

impl Group {
    /// The group of these numbers. It fails only where memory runs out.
    pub fn copy_of(alloc: Global, numbers: &[u32]) -> Result<Group, NoMemory>
        ensures { IfOk result (λ group. group ≡ numbers.now) }
    {
        Ok(Group {
            numbers: Vec::from_slice(alloc, numbers)?,
        })
    }

    /// Its numbers.
    pub fn numbers(&self) -> &[u32]
        ensures { result.now ≡ self.now }
    {
        self.numbers.as_slice()
    }
}

/// In the group, at the tuple of its states, the part `driver` drives an event that the part
/// `refuser` refuses: the event of that name, which rises or falls. Parts go by their numbers.
#[derive(Drop)]
pub struct Interference {
    pub group: Group,
    pub at: Tuple,
    pub name: Name,
    pub up: bool,
    pub driver: u32,
    pub refuser: u32,
}

/// Why parts don't work together.
#[derive(Drop)]
pub enum Misfit {
    /// Out of memory.
    NoMemory,
    /// The signals of the name can't be one signal: the first such.
    Signal { clash: Clash, name: Name },
    /// A group would have so many signals.
    TooMany(u32),
    /// In a group more tuples are reached than a graph may have states.
    States,
    /// Two parts interfere in each of their groups: how they first do in the widest.
    Interferes(Interference),
}

impl From<NoMemory> for Misfit {
    ghost use Rattle.std.specs.Prelude.{◌≡◌};
    ghost use Rattle.si_groups.specs.declared.misfit.Misfit.TheVariants.{NoMemory};

    ghost from_gives = { λ _ e. e ≡ NoMemory };

    fn from(_e: NoMemory) -> Misfit {
        Misfit::NoMemory
    }
}
