//! The graph of independent handshakes, a family of graphs of any size up to 65,536 states. That
//! they are proper and have no conflict are laws.
#![tactic(auto)]

mod arcs;
pub mod handshakes;
pub mod laws;
mod names;
