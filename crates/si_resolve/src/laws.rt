//! The laws of resolving. Each function does nothing: its contract is the law.

ghost use Rattle.si_resolve.specs.Laws.{SearchStarts, SearchSkips, SearchTakes, SearchPassesRow};
ghost use Rattle.si_resolve.specs.Laws.{SearchFinds, SearchFindsNone, BlockRefuses, BestIsUnique};
ghost use Rattle.si_resolve.specs.Laws.{NoneImprovesIsStuck, TracesAreShort, ResolvedIsUnique};
ghost use Rattle.si_resolve.specs.Laws.{UnresolvedIsUnique, EndsExclude, TracesAreLineages};
ghost use Rattle.si_resolve.specs.Laws.{TracesImplement};

/// A graph has one best candidate at most.
pub fn best_is_unique()
    ensures best { BestIsUnique }
    ensures stuck { NoneImprovesIsStuck }
{}

/// What a search for the best candidate comes to.
pub fn searches_find()
    ensures starts { SearchStarts }
    ensures skips { SearchSkips }
    ensures takes { SearchTakes }
    ensures row { SearchPassesRow }
    ensures found { SearchFinds }
    ensures none { SearchFindsNone }
    ensures blocks { BlockRefuses }
{}

/// A resolving trace and its end are determined, and each insertion lowers the number of conflicts.
pub fn traces_are_determined()
    ensures short { TracesAreShort }
    ensures resolved { ResolvedIsUnique }
    ensures unresolved { UnresolvedIsUnique }
    ensures exclude { EndsExclude }
{}

/// A resolving trace is a lineage, to which the chain theorem applies.
pub fn traces_implement()
    ensures lineages { TracesAreLineages }
    ensures implement { TracesImplement }
{}
