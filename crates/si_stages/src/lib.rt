//! The commands that make netlists or audit them, as rows of stages: from the bytes of texts to the
//! bytes of an output or a refusal. Each row has exactly one answer.
#![tactic(auto)]

pub mod audit_laws;
pub mod audited;
pub mod fold_laws;
pub mod genlib;
pub mod inserted;
pub mod inserted_laws;
pub mod mapping;
pub mod resolving;
pub mod synth;
pub mod unresolved_laws;
