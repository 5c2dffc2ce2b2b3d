//! Which gates come to their start values by themselves, where the inputs and some gates are held.
#![tactic(auto)]

pub mod forced;
mod known;
pub mod laws;
mod marks;
mod shown;
pub mod write;
