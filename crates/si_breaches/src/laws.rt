//! The laws of the report of breaches, as contracts of functions that do nothing.

ghost use Rattle.si_breaches.specs.Laws.{BreachTextsAreUnique, BreachTextsExist};
ghost use Rattle.si_breaches.specs.Laws.{ClashesTellValues, EachForkIsTold, FirstBreachLeads};
ghost use Rattle.si_breaches.specs.Laws.{ForksAreFirst, SplitsTellDeterminism};

/// A graph with names for its states has one text of its breaches, and what a check refuses the
/// graph with is told first.
pub fn breach_texts()
    ensures unique { BreachTextsAreUnique }
    ensures exist { BreachTextsExist }
    ensures first { FirstBreachLeads }
{}

/// What is told of a kind tells whether the graph has breaches of it: two walks that give a signal
/// two values exactly where it has none, and of all forks of a state and two events one; of a
/// deterministic graph each fork is told.
pub fn told_breaches()
    ensures splits { SplitsTellDeterminism }
    ensures clashes { ClashesTellValues }
    ensures forks { EachForkIsTold }
    ensures all { ForksAreFirst }
{}
