//! Why equations give no netlist beside a graph.

use si_base::ids::NoMemory;
use si_base::text::Name;
use std::alloc::{AllocError, AllocFailed};

/// Why equations give no netlist.
#[derive(Drop)]
pub enum Unsummed {
    /// Out of memory.
    NoMemory,
    /// The expression of the signal multiplies out to too many products.
    Products { signal: Name },
}

impl From<NoMemory> for Unsummed {
    ghost use Rattle.std.specs.Prelude.{◌≡◌};
    ghost use Rattle.si_from_equations.specs.declared.unsummed.Unsummed.TheVariants.{NoMemory};

    ghost from_gives = { λ _ e. e ≡ NoMemory };

    fn from(_e: NoMemory) -> Unsummed {
        Unsummed::NoMemory
    }
}

impl From<AllocError> for Unsummed {
    ghost use Rattle.std.specs.Prelude.{◌≡◌};
    ghost use Rattle.si_from_equations.specs.declared.unsummed.Unsummed.TheVariants.{NoMemory};

    ghost from_gives = { λ _ e. e ≡ NoMemory };

    fn from(_e: AllocError) -> Unsummed {
        Unsummed::NoMemory
    }
}

impl<T: Drop> From<AllocFailed<T>> for Unsummed {
    ghost use Rattle.std.specs.Prelude.{◌≡◌};
    ghost use Rattle.si_from_equations.specs.declared.unsummed.Unsummed.TheVariants.{NoMemory};

    ghost from_gives = { λ _ e. e ≡ NoMemory };

    fn from(_e: AllocFailed<T>) -> Unsummed {
        Unsummed::NoMemory
    }
}
