//! The switchings of a netlist's signals as a Value Change Dump (IEEE 1364-2005, clause 18).
#![tactic(auto)]

pub mod laws;
pub mod write;
