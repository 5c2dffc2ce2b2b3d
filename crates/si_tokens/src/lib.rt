//! A text that is read from left to right: its words, its tokens, decimal words and literals.
#![tactic(auto)]

pub mod decimal;
pub mod fault;
pub mod literals;
pub mod source;
