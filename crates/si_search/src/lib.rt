//! Searches for signals to insert that leave no conflict in a graph, wider than the rule of
//! `si_resolve`. Nothing is promised of what they find, but that they end: it is to be accepted
//! once more.
#![tactic(auto)]

mod beam;
pub mod chain;
mod flags;
mod greedy;
mod least;
mod pairs;
mod ranked;
pub mod search;
mod sided;
mod targets;
mod trials;
mod work;
