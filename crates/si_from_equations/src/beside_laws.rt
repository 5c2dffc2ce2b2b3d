//! The law of netlists of equations. The function does nothing: its contract is the law.

ghost use Rattle.si_from_equations.specs.BesideLaws.{GatesAreEquations};

/// For all values of all signals each gate of the netlist of equations beside a graph has the value
/// of the expression of its signal's equation.
pub fn gates_are_equations()
    ensures { GatesAreEquations }
{}
