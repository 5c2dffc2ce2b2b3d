//! Pictures of a state graph: its states with their codes as a table, and the graph for Graphviz.
#![tactic(auto)]

mod code_word;
pub mod conflict_states;
pub mod dot_text;
mod dot_writing;
pub mod laws;
mod red;
pub mod seen;
pub mod states_text;
