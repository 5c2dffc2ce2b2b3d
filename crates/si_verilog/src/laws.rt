//! Laws of the texts of modules. Each function does nothing: its contract is the law.

ghost use Rattle.std.specs.Prelude.{◌≡◌, ℕ, List, [], ◌∷◌, ◌++◌, IsTrue, map};
ghost use Rattle.si_base.specs.Bytes.{space, backslash};
ghost use Rattle.si_base.specs.Netlist.{Netlist};
ghost use Rattle.si_base.specs.WellFormed.{IsNetlist, IsWord};
ghost use Rattle.si_verilog.specs.Declared.{declared_names};
ghost use Rattle.si_verilog.specs.Grammar.{Expression, Module, SpellModule, Spells, Tree};
ghost use Rattle.si_verilog.specs.Keywords.{is_keyword};
ghost use Rattle.si_verilog.specs.Meaning.{IsModule, IsOfNetlist, MeansNetlist};
ghost use Rattle.si_verilog.specs.ModuleText.{verilog_name, verilog_text};
ghost use Rattle.si_verilog.specs.Symbols.{Name, Symbol, symbols_of};

/// A name that is written is read as that name and nothing else, so that two names are written in
/// two ways. A keyword is escaped.
pub fn names_are_told_apart()
    ensures read { (name : List ℕ) → IsWord name → symbols_of (verilog_name name) ≡ Name name ∷ [] }
    ensures apart { (x y : List ℕ) → IsWord x → IsWord y
        → verilog_name x ≡ verilog_name y → x ≡ y }
    ensures keywords { (word : List ℕ) → IsTrue (is_keyword word)
        → verilog_name word ≡ backslash ∷ word ++ space ∷ [] }
{}

/// Symbols spell one expression at most, and one module.
pub fn texts_have_one_meaning()
    ensures expression { (xs : List Symbol) (t u : Tree)
        → Spells Expression xs t → Spells Expression xs u → t ≡ u }
    ensures whole { (xs : List Symbol) (m k : Module)
        → SpellModule xs m → SpellModule xs k → m ≡ k }
{}

/// The text of a netlist is that of a module, and each module that it is the text of is of the
/// netlist: each assign has the value of its gate.
pub fn texts_mean_their_netlists()
    ensures means { (n : Netlist) → IsNetlist n → MeansNetlist (verilog_text n) n }
    ensures only { (n : Netlist) (m : Module) → IsNetlist n → IsModule (verilog_text n) m
        → IsOfNetlist n m }
{}

/// A module of a netlist declares each signal once, in signal order.
pub fn signals_are_declared_once()
    ensures { (n : Netlist) (m : Module) → IsNetlist n → IsOfNetlist n m
        → declared_names m ≡ map (λ x. x.name) n.signals }
{}
