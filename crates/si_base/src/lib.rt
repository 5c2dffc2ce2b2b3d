//! The plain words of the tool: ids, events, codes, names, texts, sets of states, signals and arcs.
//!
//! The definitions that every contract of the tool cites stand in this crate's `specs/`.
#![tactic(auto)]

pub mod fault;
pub mod graph;
pub mod ids;
pub mod limits;
pub mod lines;
pub mod names;
pub mod order;
pub mod sets;
pub mod text;
pub mod text_key;
