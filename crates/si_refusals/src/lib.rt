//! Refusals: why a command isn't done, with the status and the line of each.
#![tactic(auto)]

pub mod breach;
pub mod refusals;
pub mod rejection;
pub mod status;
pub mod uncomposed;
