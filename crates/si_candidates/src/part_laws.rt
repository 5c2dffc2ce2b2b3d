//! The laws of classes and of acceptance, as contracts of functions that do nothing.

ghost use Rattle.si_candidates.specs.Laws.{
  ClassesAreLawful,
  LawfulAreClasses,
  ClassesAreUnique,
  ClassesOrBothLevels,
  BothLevelsHaveNone,
  InputsWaitByBlock,
  LossesByBlock,
  AcceptedByBlocks,
  CopiesByBlocks,
};

/// Classes are determined: they are the lawful partitions, and each pair of blocks has at most one.
/// Disjoint blocks that aren't empty have none just where some part is both High and Low.
pub fn candidates_are_determined()
    ensures lawful { ClassesAreLawful }
    ensures each_lawful { LawfulAreClasses }
    ensures unique { ClassesAreUnique }
    ensures torn { BothLevelsHaveNone }
    ensures or_torn { ClassesOrBothLevels }
{}

/// Acceptance looks at each block alone.
pub fn blocks_are_accepted_alone()
    ensures inputs { InputsWaitByBlock }
    ensures losses { LossesByBlock }
    ensures accepted { AcceptedByBlocks }
    ensures copies { CopiesByBlocks }
{}
