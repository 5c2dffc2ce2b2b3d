//! The first stages of a command: the values of its texts, and the checks of its graph.
#![tactic(auto)]

pub mod checks;
pub mod library_format;
pub mod readings;
pub mod seen_graph;
