//! The laws of structural texts, as contracts of functions that do nothing.

ghost use Rattle.si_structure.specs.Laws.{ForcedAreDriven, HaveOutcome, NotBoth};
ghost use Rattle.si_structure.specs.Laws.{RefusedForOneReason, TextsHaveOneMeaning, TextsMean};
ghost use Rattle.si_structure.specs.Laws.{TextsMeanNothingElse};

/// The text of a netlist that has one is that of modules, and any modules that it is the text of
/// are of the netlist over the library: each instance has the value of its gate.
pub fn texts_mean_their_netlists()
    ensures means { TextsMean }
    ensures only { TextsMeanNothingElse }
{}

/// In a controller with a reset input the assign of each forced signal has the value of its gate
/// while that is 0, and its start value while it is 1.
pub fn forced_signals_are_driven()
    ensures { ForcedAreDriven }
{}

/// Symbols spell one list of modules at most.
pub fn texts_have_one_meaning()
    ensures { TextsHaveOneMeaning }
{}

/// A netlist has one outcome over a library: a structural text, or one reason to have none. Want of
/// memory alone may stand in place of either.
pub fn netlists_have_one_outcome()
    ensures reasons { RefusedForOneReason }
    ensures texts { NotBoth }
    ensures exist { HaveOutcome }
{}
