//! Laws of texts of modules. Each function does nothing: its contract is the law.

ghost use Rattle.std.specs.Prelude.{◌≡◌, ℕ, List, Ok};
ghost use Rattle.si_base.specs.Netlist.{Netlist};
ghost use Rattle.si_base.specs.WellFormed.{IsNetlist};
ghost use Rattle.si_equations.specs.Equations.{Equations};
ghost use Rattle.si_equations.specs.Whole.{AreWhole};
ghost use Rattle.si_verilog.specs.ModuleText.{verilog_text};
ghost use Rattle.si_verilog_reader.specs.Meaning.{MeansNetlist};
ghost use Rattle.si_verilog_reader.specs.Modules.{modules_in};

/// The module of a netlist is read back: its text has no fault, its ports are the inputs and
/// outputs of the netlist, and for all values of all signals each of its equations has the value of
/// its gate.
pub fn modules_are_read_back()
    ensures { (n : Netlist) → IsNetlist n → MeansNetlist (verilog_text n) n }
{}

/// In a text without fault the names of the signals are signal names, distinct, and not too many.
/// Each output has one equation, each internal signal too, and no input has one. Expressions name
/// signals alone.
pub fn texts_without_fault_are_whole()
    ensures { (text : List ℕ) (e : Equations) → modules_in text ≡ Ok e → AreWhole e }
{}
