//! The text of a library that is written reads back. The function does nothing: its contract is the
//! law.

ghost use Rattle.std.specs.Prelude.{◌≡◌, None};
ghost use Rattle.si_cell.specs.Library.{Library as LibraryValue, IsLibrary, with_pins};
ghost use Rattle.si_cell.specs.LibraryText.{library_fault, library_of};
ghost use Rattle.si_cell.specs.declared.pins.Pins.TheVariants.{Any};
ghost use Rattle.si_genlib.specs.Written.{library_text};

/// The text of a library has no fault, and spells that library: its cells, whose pins may have any
/// literals.
pub fn libraries_read_back()
    ensures { (library : LibraryValue) → IsLibrary library
        → (library_fault (library_text library) ≡ None)
        × (library_of (library_text library) ≡ with_pins Any library) }
{}
