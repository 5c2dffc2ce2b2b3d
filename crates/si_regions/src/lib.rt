//! Excitation, switching and quiescent regions of a coded graph.
#![tactic(auto)]

pub mod laws;
pub mod regions;
mod search;
pub mod state_list;
