//! The forms of texts of gates.

/// In which form a text spells equations.
#[derive(Clone, Copy, PartialEq, Eq, Debug)]
pub enum Form {
    /// Equations, in the form that petrify and SIS use.
    Equations,
    /// Modules of Verilog.
    Modules,
}
