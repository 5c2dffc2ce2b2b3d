//! Libraries of cells: their text, the values of their instances, and the sums of these.
#![tactic(auto)]

pub mod cell;
mod cell_reader;
pub mod expand;
pub mod laws;
pub mod library;
pub mod limits;
pub mod pin_sum;
pub mod pins;
pub mod reader;
mod sums;
mod words;
