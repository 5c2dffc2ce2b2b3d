//! The tool: from the words of a command line to the status.
#![tactic(auto)]

pub mod fold_law;
pub mod laws;
mod output;
pub mod refusing;
pub mod run;
pub mod sure;
