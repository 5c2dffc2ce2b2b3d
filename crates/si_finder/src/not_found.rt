//! Why no lineage fits a netlist.

use si_base::ids::{NoMemory, Sig, StateId};
use si_insert::accept::Rejected;
use si_insert::lineage::Lineage;
use si_reached::reached::Wild;
use si_reached::state::Reached;

/// Why no insertion of the next hidden signal is found: the first reason that applies. States are
/// those of the graph before it.
#[derive(Clone, Copy, PartialEq, Eq, Debug)]
pub enum Obstacle {
    /// It is nowhere about to rise.
    NeverUp,
    /// It is nowhere about to fall.
    NeverDown,
    /// Over the state it rises in one reached state and falls in another: the first such.
    Both { s: StateId },
    /// The part of the state would be both High and Low: the least state of all such parts.
    Classes { s: StateId },
    /// The partition isn't accepted.
    Refused { why: Rejected },
}

/// How a netlist differs from the last graph: the first difference.
#[derive(Clone, Copy, PartialEq, Eq, Debug)]
pub enum Difference {
    /// The first inserted signal whose start value isn't that of the graph's start.
    Start { sig: Sig },
    /// The first signal, and for it the first state, at which the gate hasn't the next value.
    Gate { sig: Sig, state: StateId },
}

/// Why no lineage is found: the first reason that applies.
#[derive(Drop)]
pub enum NotFound {
    /// Memory ran out.
    NoMemory,
    /// The circuit reaches more states than a graph may have.
    TooMany,
    /// At the state the gate of the signal is excited, and the graph has no arc for its event.
    Astray { at: Reached, sig: Sig },
    /// The insertions of the lineage are found, and for that reason none of the next hidden signal.
    Hindered { lineage: Lineage, why: Obstacle },
    /// All insertions are found, and the netlist isn't built on the last graph.
    Unbuilt { lineage: Lineage, why: Difference },
}

impl From<NoMemory> for NotFound {
    ghost use Rattle.std.specs.Prelude.{◌≡◌};
    ghost use Rattle.si_finder.specs.declared.not_found.NotFound.TheVariants.{NoMemory};

    ghost from_gives = { λ _ e. e ≡ NoMemory };

    fn from(_e: NoMemory) -> NotFound {
        NotFound::NoMemory
    }
}

impl From<Wild> for NotFound {
    ghost use Rattle.std.specs.Prelude.{◌≡◌};
    ghost use Rattle.si_finder.specs.Loops.Wild.{not_found_of};

    ghost from_gives = { λ w e. e ≡ not_found_of w };

    fn from(w: Wild) -> NotFound {
        match w {
            Wild::NoMemory => NotFound::NoMemory,
            Wild::TooMany => NotFound::TooMany,
            Wild::Astray { at, sig } => NotFound::Astray { at, sig },
        }
    }
}
