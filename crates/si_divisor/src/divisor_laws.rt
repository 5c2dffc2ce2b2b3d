//! The laws of pin literals and divisors. Each function does nothing: its contract is the law.

ghost use Rattle.si_divisor.specs.DivisorLaws.{PinsAreUnique, DivisorsAreUnique, PinsExist};
ghost use Rattle.si_divisor.specs.DivisorLaws.{DivisorsExist, ChoicesAreAll, DivisorsAreInstances};
ghost use Rattle.si_divisor.specs.DivisorLaws.{DivisorsAreAll, DivisorsAreFew};

/// Pin literals and divisors are determined.
pub fn divisors_are_unique()
    ensures pins { PinsAreUnique }
    ensures divisors { DivisorsAreUnique }
{}

/// Each non-input of a proper graph without conflicts has pin literals and divisors.
pub fn divisors_exist()
    ensures pins { PinsExist }
    ensures divisors { DivisorsExist }
{}

/// Divisors are instances over the graph's signals, by pin literals on distinct signals, and all
/// of these as far as they aren't cut.
pub fn divisors_are_instances()
    ensures choices { ChoicesAreAll }
    ensures instances { DivisorsAreInstances }
    ensures all { DivisorsAreAll }
    ensures few { DivisorsAreFew }
{}
