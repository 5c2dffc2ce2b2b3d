//! The law that resolving has an end. Its function does nothing: its contract is the law.

ghost use Rattle.si_resolve.specs.Laws.{ResolvingEnds};

/// From each coded proper graph a trace of insertions ends: at a graph without conflicts, or at one
/// with a first conflict that no accepted candidate betters.
pub fn resolving_ends()
    ensures { ResolvingEnds }
{}
