//! Why a netlist has no module with a reset input of some name.

use si_base::ids::NoMemory;

/// Why a netlist has no module with a reset input of some name.
#[derive(Clone, Copy, PartialEq, Eq, Debug)]
pub enum Unresettable {
    /// Out of memory.
    NoMemory,
    /// The name isn't one that a signal may have.
    NotAName,
    /// A signal of the netlist has the name.
    NameIsTaken,
}

impl From<NoMemory> for Unresettable {
    ghost use Rattle.std.specs.Prelude.{◌≡◌};
    ghost use Rattle.si_resettable.specs.declared.refusal.Unresettable.TheVariants as refusals;

    ghost from_gives = { λ _ e. e ≡ refusals.NoMemory };

    fn from(_e: NoMemory) -> Unresettable {
        Unresettable::NoMemory
    }
}
