//! Why reading stops.

ghost use Rattle.std.specs.Prelude.{◌≡◌};
ghost use Rattle.si_tokens.specs.declared.fault.ReadFault.TheVariants as faults;

use si_base::fault::TextKind;
use si_base::ids;
use std::alloc::{AllocError, AllocFailed};

/// What stops reading: the end of the lines that can be read, or a fault of this line.
#[derive(Clone, Copy, PartialEq, Eq, Debug)]
pub enum Stop {
    Cut,
    Fault { line: u64, kind: TextKind },
}

/// Why nothing was read.
#[derive(Clone, Copy, PartialEq, Eq, Debug)]
pub enum ReadFault {
    NoMemory,
    Stop(Stop),
}

impl From<AllocError> for ReadFault {
    ghost from_gives = { λ _ e. e ≡ faults.NoMemory };

    fn from(_e: AllocError) -> ReadFault {
        ReadFault::NoMemory
    }
}

impl<T: Drop> From<AllocFailed<T>> for ReadFault {
    ghost from_gives = { λ _ e. e ≡ faults.NoMemory };

    fn from(_e: AllocFailed<T>) -> ReadFault {
        ReadFault::NoMemory
    }
}

impl From<ids::NoMemory> for ReadFault {
    ghost from_gives = { λ _ e. e ≡ faults.NoMemory };

    fn from(_e: ids::NoMemory) -> ReadFault {
        ReadFault::NoMemory
    }
}
