//! Laws of covers. Each function does nothing: its contract is the law.

ghost use Rattle.std.specs.Prelude.{ℕ, length};
ghost use Rattle.si_base.specs.Codes.{CodedGraph, IsCoded};
ghost use Rattle.si_base.specs.Graph.{IsNonInput};
ghost use Rattle.si_base.specs.Proper.{HasNoConflict};
ghost use Rattle.si_base.specs.WellFormed.{IsSum};
ghost use Rattle.si_cover.specs.declared.kind.SumKind.{SumKind};
ghost use Rattle.si_cube.specs.Covers.{IsMeetable, IsPrimeCover};
ghost use Rattle.si_cover.specs.Demands.{chosen_sum, demand};

/// In a graph without conflicts no code is both required and forbidden, of whichever kind the sum
/// is.
pub fn demands_can_be_met()
    ensures { (kind : SumKind) (c : CodedGraph) (z : ℕ) → IsCoded c → HasNoConflict c
        → IsNonInput c.graph.signals z → IsMeetable (demand kind c z) }
{}

/// The chosen sum of a graph without conflicts is a cover, prime and irredundant.
pub fn chosen_sums_are_prime_covers()
    ensures { (kind : SumKind) (c : CodedGraph) (z : ℕ) → IsCoded c → HasNoConflict c
        → IsNonInput c.graph.signals z → IsPrimeCover (demand kind c z) (chosen_sum kind c z) }
{}

/// The chosen sums have their literals in rising signal order, each of a signal that is there.
pub fn chosen_sums_are_well_formed()
    ensures { (kind : SumKind) (c : CodedGraph) (z : ℕ)
        → IsSum (length c.graph.signals) (chosen_sum kind c z) }
{}
