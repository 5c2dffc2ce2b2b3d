//! Laws of parts that texts give. Each function does nothing: its contract is the law.

ghost use Rattle.std.specs.Prelude.{ℕ, List};
ghost use Rattle.si_readings.specs.Laws.{AtMostOne, HasResult};
ghost use Rattle.si_works.specs.Audited as stage;
ghost use Rattle.si_works.specs.AuditedLaws.{PartsAreAudited};

/// Texts give one row of parts, or one refusal, and one alone.
pub fn audited_parts_are_one()
    ensures some { (files texts : List (List ℕ)) → HasResult (stage.audited_parts files texts) }
    ensures one { (files texts : List (List ℕ)) → AtMostOne (stage.audited_parts files texts) }
{}

/// Each is the graph that its text gives, with a netlist that is certified for it and so implements
/// it.
pub fn parts_are_audited()
    ensures { PartsAreAudited }
{}
