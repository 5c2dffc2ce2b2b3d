//! Laws of libraries. Each function does nothing: its contract is the law.

ghost use Rattle.std.specs.Prelude.{◌≡◌, ℕ, ◌<◌, List, All, None};
ghost use Rattle.si_base.specs.Bits.{bit};
ghost use Rattle.si_base.specs.Limits.{code_width};
ghost use Rattle.si_base.specs.Netlist.{sum_value};
ghost use Rattle.si_base.specs.WellFormed.{IsSum};
ghost use Rattle.si_cell.specs.Expanded.{expanded};
ghost use Rattle.si_cell.specs.Library.{Library as LibraryValue, Instance as InstanceValue};
ghost use Rattle.si_cell.specs.Library.{IsLibrary, IsInstance, instance_value};
ghost use Rattle.si_cell.specs.LibraryText.{library_fault, library_of};

/// A text without fault spells a library.
pub fn texts_without_fault_spell_libraries()
    ensures { (text : List ℕ) → library_fault text ≡ None → IsLibrary (library_of text) }
{}

/// The expanded sum has the value of the instance at each code.
pub fn expanded_sums_have_the_value()
    ensures { (library : LibraryValue) (i : InstanceValue) (z code : ℕ) → IsLibrary library
        → IsInstance library i → z < code_width
        → sum_value code (expanded library i z) ≡ instance_value library i code (bit code z) }
{}

/// The cubes of an expanded sum have their literals in rising signal order, each of a signal that
/// is there, where the instance has only such.
pub fn expanded_sums_are_well_formed()
    ensures { (signals : ℕ) (library : LibraryValue) (i : InstanceValue) (z : ℕ)
        → IsLibrary library → IsInstance library i → All (λ l. l.sig < signals) i.literals
        → z < signals
        → IsSum signals (expanded library i z) }
{}
