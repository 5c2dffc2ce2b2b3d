//! Laws of netlists from equations. Each function does nothing: its contract is the law.

ghost use Rattle.si_from_equations.specs.SumLaws.{SumsHaveTheirValues, SumsAreWellFormed};

/// For all values of all signals the sum of products of an expression has its value.
pub fn sums_have_their_values()
    ensures { SumsHaveTheirValues }
{}

/// The cubes of a sum of products have their literals in rising signal order, each of one of the
/// signals.
pub fn sums_are_well_formed()
    ensures { SumsAreWellFormed }
{}
