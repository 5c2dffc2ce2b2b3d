//! The laws of the report, as contracts of functions that do nothing.

ghost use Rattle.si_lint.specs.Laws.{LintTextsAreUnique, LintTextsExist};

/// A coded graph with names for its states has one text.
pub fn lint_texts()
    ensures unique { LintTextsAreUnique }
    ensures exist { LintTextsExist }
{}
