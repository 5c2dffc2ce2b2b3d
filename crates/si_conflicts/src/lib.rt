//! All conflicts of a coded graph, their number, and how many an insertion would leave.
#![tactic(auto)]

pub mod chains;
pub mod classes;
pub mod conflicts;
mod count;
pub mod crowds;
pub mod keys;
pub mod laws;
mod links;
mod members;
mod own;
mod rings;
mod tally;
mod trial;
mod turns;
