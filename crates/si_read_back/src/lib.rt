//! What becomes of a netlist that is written as modules of cells and read again.
#![tactic(auto)]

pub mod laws;
