//! Shortest walks, along all arcs or along those of inputs alone, and conflicts that no insertion
//! resolves: input events alone lead to both of their states, or the circuit can't tell these apart.
#![tactic(auto)]

pub mod arcs;
pub mod distances;
pub mod laws;
mod sources;
pub mod tree;
pub mod twin_pairs;
pub mod walk;
pub mod witness;
