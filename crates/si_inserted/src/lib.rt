//! The graph of a lineage after its insertions, as a text that can be read as a given graph.
#![tactic(auto)]

mod graph;
pub mod laws;
mod names;
pub mod text;
