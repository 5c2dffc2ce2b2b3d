//! The laws of disabled arcs. Each function does nothing: its contract is the law.

ghost use Rattle.si_timing.specs.Laws.{DisabledCloseLoops, HaveOutcome, NamesTellArcs};
ghost use Rattle.si_timing.specs.Laws.{NoLoopIsLeft, NotBoth, RefusedForOneReason, TextsAreOne};
ghost use Rattle.si_timing.specs.Laws.{TextsExist};

/// With the arcs that the text names disabled, no loop of arcs of timing is left; each of them
/// closes a loop with those that are left; and their names tell them apart.
pub fn disabled_arcs_leave_no_loop()
    ensures none { NoLoopIsLeft }
    ensures closes { DisabledCloseLoops }
    ensures names { NamesTellArcs }
{}

/// A netlist has one text for timing over a library.
pub fn timing_texts_are_one()
    ensures one { TextsAreOne }
    ensures some { TextsExist }
{}

/// A netlist is of cells of the library, or is refused for one reason, that its first gate that
/// isn't one shows. Want of memory alone may stand in place of either.
pub fn netlists_have_one_outcome()
    ensures reasons { RefusedForOneReason }
    ensures both { NotBoth }
    ensures exist { HaveOutcome }
{}
