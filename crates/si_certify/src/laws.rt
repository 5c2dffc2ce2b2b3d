//! The laws of netlists whose insertions their gates tell. The function does nothing: its contract
//! is the law.

ghost use Rattle.si_certify.specs.Laws.{AuditedComeBack, CertifiedTextsPass, FittingAreWritten};

/// What `certify` comes to passes its audit; it comes to the lines of the lineage that fits
/// wherever one does; and a netlist that passes its audit comes back with the lines that spell its
/// lineage.
pub fn outputs_are_certified()
    ensures pass { CertifiedTextsPass }
    ensures written { FittingAreWritten }
    ensures same { AuditedComeBack }
{}
