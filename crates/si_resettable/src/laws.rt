//! The laws of modules with a reset input. Each function does nothing: its contract is the law.

ghost use Rattle.si_resettable.specs.Laws.{DeclaredOnce, HaveOutcome, InResetExist};
ghost use Rattle.si_resettable.specs.Laws.{InResetSettle, ModulesAreInReset, NotBoth};
ghost use Rattle.si_resettable.specs.Laws.{RefusedForOneReason, ResetsEnd, TextsAreOne, TextsExist};
ghost use Rattle.si_resettable.specs.Laws.{TextsMean, TextsMeanNothingElse};

/// The text of a netlist with a reset input means that netlist with that reset input.
pub fn texts_mean_their_netlists()
    ensures means { TextsMean }
    ensures only { TextsMeanNothingElse }
{}

/// A module with a reset input declares that input, and then each signal once, in signal order.
pub fn signals_are_declared_once()
    ensures { DeclaredOnce }
{}

/// A netlist and a name have one text.
pub fn texts_are_one()
    ensures one { TextsAreOne }
    ensures some { TextsExist }
{}

/// A netlist and a name have one outcome: a text, or one reason to have none. Want of memory alone
/// may stand in place of either.
pub fn names_have_one_outcome()
    ensures reasons { RefusedForOneReason }
    ensures texts { NotBoth }
    ensures exist { HaveOutcome }
{}

/// While the reset input is 1 the module is a netlist whose gates settle by themselves: in as many
/// rounds as gates settle, all signals come to their start values.
pub fn resets_end()
    ensures netlists { InResetExist }
    ensures modules { ModulesAreInReset }
    ensures settle { InResetSettle }
    ensures rounds { ResetsEnd }
{}
