//! Parts that work together: whether each two of them are free of interference in a group of a few
//! parts. The graph of all parts is never made.
#![tactic(auto)]

pub mod between;
pub mod laws;
pub mod members;
pub mod misfit;
pub mod settle;
pub mod together;
