//! A netlist of any origin with the lines of the insertions that its gates tell: signals that the
//! graph doesn't have count as hidden ones.
#![tactic(auto)]

pub mod certify;
mod hidden;
pub mod laws;
mod reasons;
