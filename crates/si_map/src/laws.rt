//! The laws of mapping. Each function does nothing: its contract is the law.

ghost use Rattle.si_map.specs.Laws.{FitOrNot, FirstUnfitIsUnique, FitExcludesUnfit, BestIsUnique};
ghost use Rattle.si_map.specs.Laws.{TracesAreShort, TracesLeaveNoConflict, FittedIsMapped};
ghost use Rattle.si_map.specs.Laws.{MappedIsUnique, UnmappedIsUnique, EndsExclude};
ghost use Rattle.si_map.specs.Laws.{TracesAreLineages, TracesImplement};

/// Either each signal that the circuit drives fits a cell, or there is a first that doesn't, and
/// one only.
pub fn signals_fit_or_not()
    ensures some { FitOrNot }
    ensures one { FirstUnfitIsUnique }
    ensures apart { FitExcludesUnfit }
{}

/// A graph has one best divisor at most.
pub fn best_is_unique()
    ensures { BestIsUnique }
{}

/// A mapping trace and its end are determined. Each insertion lowers the weight and leaves no
/// conflict.
pub fn traces_are_determined()
    ensures short { TracesAreShort }
    ensures free { TracesLeaveNoConflict }
    ensures fitted { FittedIsMapped }
    ensures mapped { MappedIsUnique }
    ensures unmapped { UnmappedIsUnique }
    ensures exclude { EndsExclude }
{}

/// A mapping trace is a lineage, to which the chain theorem applies.
pub fn traces_implement()
    ensures lineages { TracesAreLineages }
    ensures implement { TracesImplement }
{}
