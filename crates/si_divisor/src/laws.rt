//! The laws of the partition for an instance, as contracts of functions that do nothing.

ghost use Rattle.si_divisor.specs.Laws.{RulesAreAcceptance, PartitionsAreLawful};
ghost use Rattle.si_divisor.specs.Laws.{PartitionsAreAccepted, PartitionsAreLeast};
ghost use Rattle.si_divisor.specs.Laws.{PartitionsAreUnique, ReasonsAreUnique, ReasonsExclude};
ghost use Rattle.si_divisor.specs.Laws.{PartitionsExist, InstancesAreUnate, InstancesFit};
ghost use Rattle.si_divisor.specs.Laws.{NewSignalFits, FunctionsDecide};

/// The rules are what acceptance asks, so a partition is accepted unless it is too large, and no
/// accepted one with the same targets switches at fewer states.
pub fn partitions_are_accepted()
    ensures rules { RulesAreAcceptance }
    ensures lawful { PartitionsAreLawful }
    ensures accepted { PartitionsAreAccepted }
    ensures least { PartitionsAreLeast }
{}

/// There is one partition or one reason, never both.
pub fn partitions_are_determined()
    ensures partition { PartitionsAreUnique }
    ensures reason { ReasonsAreUnique }
    ensures exclude { ReasonsExclude }
    ensures exist { PartitionsExist }
{}

/// An instance is a gate for the signal that is inserted for it.
pub fn instances_are_gates()
    ensures unate { InstancesAreUnate }
    ensures values { InstancesFit }
    ensures fits { NewSignalFits }
{}

/// Whether an instance has a partition, and which, is decided by the function that it computes.
pub fn functions_decide()
    ensures { FunctionsDecide }
{}
