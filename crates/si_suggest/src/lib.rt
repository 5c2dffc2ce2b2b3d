//! Signals that resolve the conflicts of a graph, by a search that is wider than the rule of
//! `si_resolve`: what it finds is accepted once more, and of all that is found the netlist with the
//! fewest literals is kept.
#![tactic(auto)]

pub mod literals;
pub mod never;
mod offers;
pub mod suggest;
