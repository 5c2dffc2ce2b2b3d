//! The circuit beside its environment, one switching at a time: steps, verdicts, and the replay of
//! schedules.
#![tactic(auto)]

pub mod laws;
pub mod lists;
pub mod replay;
pub mod schedule;
mod step;
pub mod system;
pub mod verdict;
