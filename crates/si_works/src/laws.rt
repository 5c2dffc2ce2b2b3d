//! The laws of netlists that work together. Each function does nothing: its contract is the law.

ghost use Rattle.std.specs.Prelude.{ℕ, List};
ghost use Rattle.si_readings.specs.Laws.{AtMostOne, HasResult};
ghost use Rattle.si_works.specs.Laws.{OutputsAreRight};
ghost use Rattle.si_works.specs.Works.{works};

/// Texts come to one answer, and to one alone.
pub fn works_is_one()
    ensures some { (files texts : List (List ℕ)) → HasResult (works files texts) }
    ensures one { (files texts : List (List ℕ)) → AtMostOne (works files texts) }
{}

/// Texts that come to an output are right together: the netlists implement, joined, each composed
/// graph of all graphs, and there is one.
pub fn outputs_are_right()
    ensures { OutputsAreRight }
{}
