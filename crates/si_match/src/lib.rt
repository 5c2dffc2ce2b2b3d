//! Cells for the signals of a graph: the first instance that fits, supports, and the weight.
#![tactic(auto)]

pub mod apart;
pub mod codes;
mod columns;
mod differences;
pub mod fit;
pub mod functions;
pub mod known;
pub mod laws;
pub mod places;
mod refute;
mod rows;
mod search;
mod state;
pub mod support;
pub mod triggers;
pub mod weight;
