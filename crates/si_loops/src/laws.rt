//! The laws of loops. Each function does nothing: its contract is the law.

ghost use Rattle.si_loops.specs.Laws.{KeptAreAcyclic, CutsCloseLoops, EachIsKeptOrCut, SplitsAreOne};
ghost use Rattle.si_loops.specs.Laws.{SplitsExist, LoopsTextsAreOne, LoopsTextsExist};

/// Of arcs that are gone over in order, and of which those are kept that close no loop: what is
/// kept has no loop; each that is cut closes one; and there is one such split.
pub fn loops()
    ensures acyclic { KeptAreAcyclic }
    ensures closes { CutsCloseLoops }
    ensures all { EachIsKeptOrCut }
    ensures one { SplitsAreOne }
    ensures some { SplitsExist }
{}

/// A netlist has one text of its loops.
pub fn loops_texts_are_one()
    ensures one { LoopsTextsAreOne }
    ensures some { LoopsTextsExist }
{}
