//! The texts of the regions, of the conflicts and of the covers of a graph.
#![tactic(auto)]

pub mod conflict_listing;
pub mod cover_listing;
pub mod laws;
mod numbers;
pub mod region_listing;
mod words;
