//! All breaches of a graph that isn't proper, kind by kind: what a designer is told of it.
#![tactic(auto)]

mod breach_lines;
pub mod breach_report;
mod breaches;
mod clashes;
mod forks;
pub mod laws;
mod losses;
mod parities;
mod splits;
mod steps;
