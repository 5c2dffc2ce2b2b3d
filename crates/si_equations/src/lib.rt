//! Netlists as equations, in the form that petrify and SIS use, and what a text of equations means:
//! that of a netlist means that netlist.
#![tactic(auto)]

pub mod laws;
mod names;
pub mod write;
mod write_sums;
