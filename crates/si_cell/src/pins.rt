//! Which literals the pins of a library's instances may have.

ghost use Rattle.std.specs.Prelude.{◌≡◌};
ghost use Rattle.si_cell.specs.Library as spec;

use si_base::ids::Literal;

/// Which literals the pins of instances may have.
#[derive(Clone, Copy, PartialEq, Eq, Debug)]
pub enum Pins {
    /// Signals and their complements: a complement is taken within the cell.
    Any,
    /// Signals alone: each pin reads a signal as it is.
    Plain,
}

impl Pins {
    /// Whether such a pin may have the literal.
    pub fn admits(self, literal: Literal) -> bool
        ensures { result ≡ spec.admits self literal }
    {
        match self {
            Pins::Any => true,
            Pins::Plain => literal.plain,
        }
    }
}
