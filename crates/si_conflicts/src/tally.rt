//! Copies of states of one code, counted at a value of the new signal.

ghost use Rattle.std.specs.Prelude.{◌≡◌, ◌+◌, List, [], ◌∷◌, ◌++◌, cond, count_by};
ghost use Rattle.si_conflicts.specs.Loops.Apart as Apart;
ghost use Rattle.si_conflicts.specs.Loops.Apart.{role_at, are_apart, RoleAndKey, HasTally, IsTally};
ghost use Rattle.si_conflicts.specs.Loops.Apart.{IsUpTo};
ghost use Rattle.si_conflicts.specs.Loops.Apart.{AreUpTo};
ghost use Rattle.si_conflicts.specs.declared.keys.Key.{Key};
ghost use Rattle.si_conflicts.specs.Loops.Turns.{change_between};

use crate::turns::Change;
use si_insert::partition::Class;

/// What the new signal does at the copy of a state, at one of its values.
#[derive(Clone, Copy, PartialEq, Eq, Debug)]
pub enum Role {
    /// There is no copy.
    Absent,
    /// It is stable.
    Plain,
    /// It may switch.
    Switching,
}

impl Role {
    /// The role of states of that class.
    pub fn of(class: Class, value: bool) -> Role
        ensures { result ≡ role_at value class }
    {
        match (class, value) {
            (Class::Rising, false) => Role::Switching,
            (Class::Falling, true) => Role::Switching,
            (Class::Low, true) => Role::Absent,
            (Class::High, false) => Role::Absent,
            _ => Role::Plain,
        }
    }

    /// Whether the new signal may switch.
    pub fn is_switching(self) -> bool
        ensures { result ≡ Apart.is_switching self }
    {
        matches!(self, Role::Switching)
    }
}

/// How many copies at one value have a certain code.
#[derive(Clone, Copy, PartialEq, Eq, Debug)]
pub struct Tally {
    /// Those at which the new signal is stable.
    plain: u32,
    /// Those of them whose states have a certain key.
    equal: u32,
    /// Those at which it may switch.
    switching: u32,
}

impl Tally {
    /// The tally of no copy.
    pub fn none() -> Tally
        ensures { (key : Key) → IsTally key [] result }
    {
        Tally {
            plain: 0,
            equal: 0,
            switching: 0,
        }
    }

    /// The tally for the second of two keys in place of the first, where no copy has a key after
    /// the first and the second isn't before it.
    pub fn for_change(self, change: Change) -> Tally
        ensures { (copies : List RoleAndKey) → (from to : Key) → change ≡ change_between from to
            → IsUpTo from to → AreUpTo copies from
            → IsTally from copies self → IsTally to copies result }
    {
        Tally {
            plain: kept(self.plain, change.keeps_code()),
            equal: kept(self.equal, change.keeps_key()),
            switching: kept(self.switching, change.keeps_code()),
        }
    }

    /// How many of the copies are a conflict with one more of that role and the tally's key.
    pub fn conflicts(self, role: Role) -> u32
        requires { HasTally self }
        ensures { (copies : List RoleAndKey) → (key : Key) → IsTally key copies self
            → result ≡ count_by (λ e. are_apart e (role, key)) copies }
    {
        match role {
            Role::Absent => 0,
            Role::Plain => self.plain - self.equal + self.switching,
            Role::Switching => self.plain,
        }
    }

    /// The tally with one more copy, of that role and the tally's key.
    pub fn with(self, role: Role) -> Tally
        requires { HasTally self }
        ensures { (copies : List RoleAndKey) → (key : Key) → IsTally key copies self
            → IsTally key (copies ++ (role, key) ∷ []) result }
    {
        match role {
            Role::Absent => self,
            Role::Plain => Tally {
                plain: self.plain + 1,
                equal: self.equal + 1,
                ..self
            },
            Role::Switching => Tally {
                switching: self.switching + 1,
                ..self
            },
        }
    }
}

/// The number where it is kept, or else 0. Which it is changes from state to state, so a product
/// costs less than a branch that is often foretold wrongly.
fn kept(n: u32, keeps: bool) -> u32
    ensures { result ≡ cond keeps n 0 }
{
    n * u32::from(keeps)
}
