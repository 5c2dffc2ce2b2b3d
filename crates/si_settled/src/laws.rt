//! The laws of settling. Each function does nothing: its contract is the law.

ghost use Rattle.si_settled.specs.Laws.{RoundsSettle, RestIsAtStart, StartStays, StartIsNear};
ghost use Rattle.si_settled.specs.Laws.{ShownAreForced, MoreHeldSettle, ExcitedAreHeld};
ghost use Rattle.si_settled.specs.Laws.{ForcedSuffice, NoneIsSuperfluous, DropsAreOne, DropsExist};
ghost use Rattle.si_settled.specs.Laws.{ResetTextsAreOne, ResetTextsExist};

/// Where all gates settle, each schedule of so many rounds ends at the start values, whatever the
/// values were; the circuit rests at no other values; there it stays; and it is near from anywhere.
pub fn settling()
    ensures rounds { RoundsSettle }
    ensures rest { RestIsAtStart }
    ensures stays { StartStays }
    ensures near { StartIsNear }
    ensures excited { ExcitedAreHeld }
{}

/// What the cubes show.
pub fn shown()
    ensures forced { ShownAreForced }
    ensures more { MoreHeldSettle }
{}

/// The outputs to force suffice, none of them is superfluous, and there is one such list.
pub fn forced()
    ensures suffice { ForcedSuffice }
    ensures needed { NoneIsSuperfluous }
    ensures one { DropsAreOne }
    ensures some { DropsExist }
{}

/// A netlist has one text of what settles and what to force.
pub fn reset_texts_are_one()
    ensures one { ResetTextsAreOne }
    ensures some { ResetTextsExist }
{}
