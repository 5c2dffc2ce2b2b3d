//! State graphs, and their first stage: graphs whose states have codes.
#![tactic(auto)]

pub mod arc_store;
mod chain;
pub mod closure;
pub mod coded;
mod determinism;
pub mod graph;
mod groups;
pub mod laws;
mod next_values;
mod reach;
mod renaming;
pub mod search;
mod spread;
mod values;
