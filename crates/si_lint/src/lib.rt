//! What a designer is told of a proper graph: signals that never switch, states without arcs, arcs
//! after which the start can't be reached any more, inputs that another event disables, equal codes,
//! states that folding would merge, and conflicts that no insertion resolves.
#![tactic(auto)]

mod dead;
mod findings;
pub mod laws;
mod lines;
pub mod lint;
mod merged;
mod one_way;
mod same_codes;
mod unresolvable;
mod unused;
mod withdrawals;
