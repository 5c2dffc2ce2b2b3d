//! Complemented literals at pins.

/// What becomes of a complemented literal at a pin.
#[derive(Clone, Copy, PartialEq, Eq, Debug)]
pub enum Complements {
    /// No cell reads one: the netlist is refused.
    Refused,
    /// An inverter of its own drives the pin, where the library has one.
    Inverted,
}
