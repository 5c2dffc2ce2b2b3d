//! Equations of any origin, certified for a graph: the netlist that they spell, with the lines of
//! the insertions that its gates tell, and the start values at which they do.
#![tactic(auto)]

pub mod certify;
pub mod form;
pub mod laws;
pub mod limits;
mod netlist;
mod starts;
