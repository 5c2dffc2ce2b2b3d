//! The law that mapping has an end. Its function does nothing: its contract is the law.

ghost use Rattle.si_map.specs.Laws.{MappingEnds};

/// From each coded proper graph without conflicts a trace of insertions ends: where each signal
/// that the circuit drives fits a cell, or where one doesn't and no divisor serves.
pub fn mapping_ends()
    ensures { MappingEnds }
{}
