//! The laws of groups. Each function does nothing: its contract is the law.

ghost use Rattle.si_groups.specs.Laws.{GroupsShowTheWhole, MisfitsAreOne, WorkHasNoMisfit};
ghost use Rattle.si_groups.specs.Laws.{WorkIsOne, WorkOrMisfit};

/// Parts that work together in groups are right together: netlists that implement them implement
/// the composed graph of all of them, which is never made.
pub fn groups_show_the_whole()
    ensures { GroupsShowTheWhole }
{}

/// Parts work together, or there is one first misfit, and not both.
pub fn misfits_are_one()
    ensures work { WorkIsOne }
    ensures apart { WorkHasNoMisfit }
    ensures one { MisfitsAreOne }
    ensures some { WorkOrMisfit }
{}
