//! Why a netlist has no text for a timing tool.

use si_base::ids::{NoMemory, Sig};

/// Why a netlist has no text for a timing tool over a library.
#[derive(Clone, Copy, PartialEq, Eq, Debug)]
pub enum Untimed {
    /// Out of memory.
    NoMemory,
    /// The gate of the signal isn't an instance of a cell of the library.
    NoInstance { sig: Sig },
}

impl From<NoMemory> for Untimed {
    ghost use Rattle.std.specs.Prelude.{◌≡◌};
    ghost use Rattle.si_timing.specs.declared.refusal.Untimed.TheVariants as refusals;

    ghost from_gives = { λ _ e. e ≡ refusals.NoMemory };

    fn from(_e: NoMemory) -> Untimed {
        Untimed::NoMemory
    }
}
