//! The laws of the text, as contracts of functions that do nothing.

ghost use Rattle.si_explain.specs.Laws.{ExplainTextsAreUnique, ExplainTextsExist};
ghost use Rattle.si_explain.specs.Laws.{SourcesShowJoined, NoSourceShowsNone};
ghost use Rattle.si_explain.specs.Laws.{JoinedNeverResolve, JoinedEndUnresolved};
ghost use Rattle.si_explain.specs.Laws.{KinAreTold, KinNeverResolve, KinEndUnresolved};
ghost use Rattle.si_explain.specs.Laws.{TwinsAreTold, TwinsNeverResolve, TwinsEndUnresolved};

/// A coded graph with names for its states has one text.
pub fn explain_texts()
    ensures unique { ExplainTextsAreUnique }
    ensures exist { ExplainTextsExist }
{}

/// A source is shown exactly where input events join the conflict.
pub fn shown_sources()
    ensures joined { SourcesShowJoined }
    ensures none { NoSourceShowsNone }
{}

/// Resolving a graph with a conflict that input events join ends unresolved.
pub fn joined_stay_unresolved()
    ensures never { JoinedNeverResolve }
    ensures ends { JoinedEndUnresolved }
{}

/// That the states of a conflict are twins is told exactly where they are, in graphs of up to 2,048
/// states; and resolving a graph with such a conflict ends unresolved.
pub fn twins_stay_unresolved()
    ensures told { TwinsAreTold }
    ensures never { TwinsNeverResolve }
    ensures ends { TwinsEndUnresolved }
{}

/// That the states of a conflict are kin is told exactly where they are, and resolving a graph with
/// such a conflict ends unresolved.
pub fn kin_stay_unresolved()
    ensures told { KinAreTold }
    ensures never { KinNeverResolve }
    ensures ends { KinEndUnresolved }
{}
