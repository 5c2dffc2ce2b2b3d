//! Netlists, their gates, and their text as it is written.
#![tactic(auto)]

pub mod gate;
pub mod name_list;
pub mod netlist;
pub mod write;
mod write_gates;
