//! The laws of equations that are certified. The function does nothing: its contract is the law.

ghost use Rattle.si_certify_equations.specs.Laws.{AnswersAreOne, AnswersExist};
ghost use Rattle.si_certify_equations.specs.Laws.{CertifiedEquationsPass, FittingAreCertified};

/// What equations come to passes its audit, and its gates have the values of the equations; they
/// come to something wherever with some start values a lineage fits; and each two texts have
/// exactly one answer.
pub fn equations_are_certified()
    ensures pass { CertifiedEquationsPass }
    ensures certified { FittingAreCertified }
    ensures one { AnswersAreOne }
    ensures some { AnswersExist }
{}
