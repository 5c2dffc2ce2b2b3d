//! Laws of audits over texts. The function does nothing: its contract is the law.

ghost use Rattle.si_stages.specs.AuditLaws.{MappedPass, SynthesisedPass};

/// What is synthesised for a graph, or what it is mapped to, passes the audit for that graph: the
/// lineage over which it is written is its one certificate, and the output tells of it.
pub fn written_netlists_pass()
    ensures synthesised { SynthesisedPass }
    ensures mapped { MappedPass }
{}
