//! Laws of texts of equations. Each function does nothing: its contract is the law.

ghost use Rattle.std.specs.Prelude.{◌≡◌, ℕ, List, Ok};
ghost use Rattle.si_base.specs.Netlist.{Netlist};
ghost use Rattle.si_base.specs.WellFormed.{IsNetlist};
ghost use Rattle.si_equations.specs.Equations.{Equations, equations_in};
ghost use Rattle.si_equations.specs.Meaning.{MeansNetlist};
ghost use Rattle.si_equations.specs.Whole.{AreWhole};
ghost use Rattle.si_equations.specs.Written.{equations_text};

/// The text of a netlist has no fault. Its lists are those of the netlist, and for all values of
/// all signals each of its equations has the value of its gate.
pub fn texts_mean_their_netlists()
    ensures { (n : Netlist) → IsNetlist n → MeansNetlist (equations_text n) n }
{}

/// In a text without fault the names of the signals are signal names, distinct, and not too many.
/// Each output has one equation, each internal signal too, and no input has one. Expressions name
/// signals alone.
pub fn texts_without_fault_are_whole()
    ensures { (text : List ℕ) (e : Equations) → equations_in text ≡ Ok e → AreWhole e }
{}
