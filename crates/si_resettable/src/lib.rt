//! Netlists as modules of Verilog with a reset input: while it is 1 the netlist comes to its start
//! values, and while it is 0 the module is the netlist.
#![tactic(auto)]

pub mod forcing;
pub mod laws;
pub mod refusal;
pub mod write;
