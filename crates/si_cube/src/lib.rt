//! Cubes and sums, the sum that is chosen for codes, and the words of a sum.
#![tactic(auto)]

pub mod codes;
pub mod cube;
mod growth;
pub mod laws;
mod needed;
mod order;
pub mod sum;
pub mod write_sums;
