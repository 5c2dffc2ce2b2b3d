//! Styles of gates.

/// What the gates of a netlist are.
#[derive(Clone, Copy, PartialEq, Eq, Debug)]
pub enum Style {
    /// Complex gates: each computes the next value of its signal, as one sum.
    Complex,
    /// Generalised C-elements: each has a sum that sets its signal and one that resets it.
    GeneralisedC,
}
