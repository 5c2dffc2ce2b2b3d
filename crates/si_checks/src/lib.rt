//! Checks of coded graphs: proper graphs, and proper graphs without conflicts. That a graph which
//! fails one has a first breach, or a first conflict, is a law.
#![tactic(auto)]

mod breaches;
mod by_codes;
pub mod conflicts;
pub mod distinct;
mod forks;
pub mod laws;
mod losses;
pub mod proper;
mod squares;
