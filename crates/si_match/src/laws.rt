//! Laws of fitting instances and of supports. Each function does nothing: its contract is the law.

ghost use Rattle.std.specs.Prelude.{◌≡◌, ℕ, Some, None, true};
ghost use Rattle.si_base.specs.Codes.{CodedGraph, IsCoded};
ghost use Rattle.si_base.specs.Graph.{IsNonInput};
ghost use Rattle.si_base.specs.Proper.{HasNoConflict};
ghost use Rattle.si_cell.specs.Library.{Library as LibraryValue, Instance as InstanceValue};
ghost use Rattle.si_match.specs.Fit.{first_fit, IsOver, Fits};
ghost use Rattle.si_match.specs.Support.{determines, support_of};

/// The first fitting instance is one over the graph's signals, and has the next value of the signal
/// at every state.
pub fn the_first_fit_fits()
    ensures { (c : CodedGraph) (library : LibraryValue) (z : ℕ) (i : InstanceValue) → IsCoded c
        → first_fit c library z ≡ Some i → IsOver c library i × Fits c library z i }
{}

/// Where there is no first fitting instance, none fits.
pub fn without_a_first_fit_none_fits()
    ensures { (c : CodedGraph) (library : LibraryValue) (z : ℕ) (i : InstanceValue) → IsCoded c
        → first_fit c library z ≡ None → IsOver c library i → Fits c library z i → ⊥ }
{}

/// In a graph without conflicts the support determines the next value.
pub fn supports_determine()
    ensures { (c : CodedGraph) (z : ℕ) → IsCoded c → HasNoConflict c
        → IsNonInput c.graph.signals z → determines c z (support_of c z) ≡ true }
{}
