//! The laws of intervals and blocks, as the contract of a function that does nothing.

ghost use Rattle.si_candidates.specs.Laws.{IntervalsAreUnique, IntervalsExist, BlocksAreUnique};
ghost use Rattle.si_candidates.specs.Laws.{BlocksExist};

/// Each set and event have one interval, and each coded graph has one list of blocks.
pub fn blocks_are_determined()
    ensures intervals_unique { IntervalsAreUnique }
    ensures intervals_exist { IntervalsExist }
    ensures blocks_unique { BlocksAreUnique }
    ensures blocks_exist { BlocksExist }
{}
