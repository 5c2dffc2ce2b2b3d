//! The laws of monotonous cubes. Each function does nothing: its contract is the law.

ghost use Rattle.si_cover.specs.MonoLaws.{MonosMeet, LeastMonosAgree, LeastMonosHaveSameLiterals};
ghost use Rattle.si_cover.specs.MonoLaws.{FallingIsMono, StrayedIsNone, NoMonoIsUnique, MonoOrNone};
ghost use Rattle.si_cover.specs.MonoLaws.{GrowthBegins, GrowthTakes, GrowthGoesOn, GrowthEnds};
ghost use Rattle.si_cover.specs.MonoLaws.{TurnsDropLiterals};

/// Where a monotonous cube exists, there is a least one, by its literals just one, and it is the
/// least of all cubes that have the other two properties.
pub fn there_is_a_least()
    ensures meet { MonosMeet }
    ensures agree { LeastMonosAgree }
    ensures literals { LeastMonosHaveSameLiterals }
    ensures mono { FallingIsMono }
    ensures none { StrayedIsNone }
    ensures first { NoMonoIsUnique }
{}

/// Each component has a least one, its literals in signal order, or a state that shows that it has
/// none.
pub fn there_is_one_or_none()
    ensures { MonoOrNone }
{}

/// Growth from the full cube of a state reaches the least falling cover, and each turn drops a
/// literal.
pub fn growth_reaches_it()
    ensures begins { GrowthBegins }
    ensures takes { GrowthTakes }
    ensures goes_on { GrowthGoesOn }
    ensures ends { GrowthEnds }
    ensures drops { TurnsDropLiterals }
{}
