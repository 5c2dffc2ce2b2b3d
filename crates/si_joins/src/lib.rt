//! The command `join` as a row of stages: one netlist of all gates of netlists that are certified
//! each for its own graph, for the graph of all the graphs side by side.
#![tactic(auto)]

mod cubes;
mod gates;
pub mod join;
pub mod laws;
mod lines;
mod names;
mod netlist;
mod places;
mod refused;
mod sets;
mod steps;
mod view;
