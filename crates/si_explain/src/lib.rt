//! Why a graph has conflicts: the codes of the first ones, what their states enable, walks to them,
//! and whether no insertion resolves one: inputs alone lead to both of its states, or from one to
//! the other, some backwards, or the circuit can't tell these apart.
#![tactic(auto)]

pub mod events;
pub mod explain;
pub mod laws;
