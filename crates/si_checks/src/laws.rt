//! Laws of the checks. Each function does nothing: its contract is the law.

ghost use Rattle.std.specs.Prelude.{◌≡◌, ◌⊎◌, ℕ};
ghost use Rattle.si_base.specs.Codes.{CodedGraph, IsCoded, IsConnected, IsConsistent};
ghost use Rattle.si_base.specs.Codes.{IsDeterministic};
ghost use Rattle.si_base.specs.Graph.{IsGraph, StateGraph};
ghost use Rattle.si_base.specs.Order.{IsFirst};
ghost use Rattle.si_base.specs.Proper.{HasNoConflict, IsConflict, pair_place};
ghost use Rattle.si_checks.specs.Laws.{FirstBreachesAreOne, IsOfOne, ProperOrBreach};

/// A connected, deterministic and consistent graph has codes.
pub fn consistent_graphs_have_codes()
    ensures { (g : StateGraph) → IsGraph g → IsConnected g → IsDeterministic g → IsConsistent g
        → (c : CodedGraph) × (c.graph ≡ g) × IsCoded c }
{}

/// A connected graph is proper, or the first property that it lacks has a first breach. The
/// properties are determinism, consistency, commutativity and output persistency, in this order.
pub fn improper_graphs_have_a_first_breach()
    ensures { (g : StateGraph) → IsGraph g → IsConnected g → ProperOrBreach g }
{}

/// The states and codes of a graph have no conflict, or a first one.
pub fn conflicts_have_a_first()
    ensures { (c : CodedGraph)
        → HasNoConflict c ⊎ ((pair : ℕ × ℕ) × IsFirst pair_place (IsConflict c) pair) }
{}

/// No graph has two first breaches of one kind.
pub fn first_breaches_are_one()
    ensures { (g : StateGraph) → FirstBreachesAreOne g }
{}

/// No graph has two first conflicts.
pub fn first_conflicts_are_one()
    ensures { (c : CodedGraph) → IsOfOne (IsFirst pair_place (IsConflict c)) }
{}
