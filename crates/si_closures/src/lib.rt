//! Closures of many sets of states at once, a bit of a word for each set.
#![tactic(auto)]

pub mod columns;
pub mod set_rows;
pub mod turned;
pub mod word_search;
pub mod word_work;
pub mod words;
