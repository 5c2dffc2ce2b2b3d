//! Why a netlist has no structural text.

use si_base::ids::{NoMemory, Sig};

/// Why a netlist has no structural text over a library.
#[derive(Clone, Copy, PartialEq, Eq, Debug)]
pub enum Unstructured {
    /// Out of memory.
    NoMemory,
    /// The gate of the signal isn't an instance of a cell of the library.
    NoInstance { sig: Sig },
    /// The gate of the signal is an instance of the cell at that place of the library, and its
    /// literal at that pin, from 0, is complemented.
    Complemented { sig: Sig, cell: u8, pin: u8 },
    /// The model has the name of a cell that is used.
    ModelIsCell,
}

impl From<NoMemory> for Unstructured {
    ghost use Rattle.std.specs.Prelude.{◌≡◌};
    ghost use Rattle.si_structure.specs.declared.refusal.Unstructured.TheVariants as refusals;

    ghost from_gives = { λ _ e. e ≡ refusals.NoMemory };

    fn from(_e: NoMemory) -> Unstructured {
        Unstructured::NoMemory
    }
}
