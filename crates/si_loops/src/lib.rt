//! The arcs between the gates of a netlist, and those that, cut, leave it without a loop.
#![tactic(auto)]

pub mod arcs;
pub mod cut;
pub mod laws;
mod paths;
pub mod write;
