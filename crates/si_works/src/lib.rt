//! The command `works` as a row of stages: whether netlists, each right for its own graph, are right
//! together.
#![tactic(auto)]

pub mod audited;
pub mod audited_laws;
pub mod laws;
pub mod works;
