//! Netlists from equations: the sums of their expressions, multiplied out, and the netlist beside a
//! graph, of which further signals are hidden ones.
#![tactic(auto)]

pub mod beside;
pub mod beside_laws;
pub mod laws;
mod limits;
mod products;
pub mod signals;
pub mod started;
pub mod sums;
mod two_sums;
pub mod unsummed;
