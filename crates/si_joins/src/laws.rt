//! The laws of joined netlists. Each function does nothing: its contract is the law.

ghost use Rattle.std.specs.Prelude.{ℕ, List};
ghost use Rattle.si_joins.specs.Join.{join};
ghost use Rattle.si_joins.specs.Laws.{JoinedPass};
ghost use Rattle.si_readings.specs.Laws.{AtMostOne, HasResult};

/// Texts come to one answer, and to one alone.
pub fn joins_are_one()
    ensures some { (files texts : List (List ℕ)) → HasResult (join files texts) }
    ensures one { (files texts : List (List ℕ)) → AtMostOne (join files texts) }
{}

/// A joined netlist passes its audit for the composed graph, and so implements that.
pub fn joined_netlists_pass()
    ensures { JoinedPass }
{}
