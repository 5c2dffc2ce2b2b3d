//! The text of a netlist as it is read, and the law that writing and reading are inverse. A gate
//! line can be read alone.
#![tactic(auto)]

pub mod gate_reader;
mod gate_rows;
mod header;
mod insertions;
pub mod laws;
pub mod reader;
