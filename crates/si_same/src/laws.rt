//! The laws of graphs that behave alike. Each function does nothing: its contract is the law.

ghost use Rattle.si_same.specs.Laws.{AlikeOrDiffer, AnswersAreUnique, FoldedSizesAgree};
ghost use Rattle.si_same.specs.Laws.{IsEquivalence, NetlistsAreForEither, NetlistsServeBoth, WalksTell};

/// Two graphs behave alike or have a first difference, one of the two, and one difference.
pub fn first_differences_are_determined()
    ensures some { AlikeOrDiffer }
    ensures one { AnswersAreUnique }
{}

/// Graphs behave alike exactly where they can go the same walks; so to behave alike is an
/// equivalence.
pub fn walks_tell()
    ensures walks { WalksTell }
    ensures equivalence { IsEquivalence }
{}

/// The folded graphs of two graphs that behave alike have as many states.
pub fn folded_sizes_agree()
    ensures { FoldedSizesAgree }
{}

/// Beside two graphs that behave alike a netlist has the same behaviour: it loses no excitation, is
/// bisimilar or has no silent cycle with both or with neither. And one with the signals and the
/// start of the one graph has those of the other.
pub fn netlists_serve_both()
    ensures behaviour { NetlistsServeBoth }
    ensures both { NetlistsAreForEither }
{}
