//! The commands with suggested insertions as rows of stages: from the text of a graph to the text of
//! a netlist for it, with signals inserted by a search that is wider than that of `synth`; to the
//! text of the graph after these insertions; and to a netlist of cells over them.
#![tactic(auto)]

pub mod laws;
pub mod mapped;
pub mod resolved;
pub mod suggested;
