//! The words, event words, lists of names, lines and gate lines that the tool's own texts are made
//! of.
#![tactic(auto)]

pub mod ends;
pub mod event_words;
pub mod gate_lines;
pub mod lists;
pub mod rows;
pub mod words;
pub mod writing;
