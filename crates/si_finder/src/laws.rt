//! The laws of what is found. Each function does nothing: its contract is the law.

ghost use Rattle.si_finder.specs.Laws.{AnswersAreOne, AnswersExist, RefusalsFitNone};

/// Of a graph and a netlist there is one answer, beside want of memory: a lineage that fits, or one
/// reason; and where a reason is told no lineage fits.
pub fn answers()
    ensures one { AnswersAreOne }
    ensures none { RefusalsFitNone }
    ensures some { AnswersExist }
{}
