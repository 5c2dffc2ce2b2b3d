//! Lines by which a timing tool leaves out arcs of the instances of a netlist of cells, so that it
//! meets no loop.
#![tactic(auto)]

mod decide;
mod feedback;
pub mod laws;
mod lines;
pub mod refusal;
pub mod write;
