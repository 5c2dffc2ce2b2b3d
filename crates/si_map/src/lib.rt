//! Circuits of the cells of a library: the best divisor is inserted as a signal, again and again,
//! until each signal fits a cell.
#![tactic(auto)]

pub mod best;
mod choices;
pub mod ends;
mod fitted;
mod functions;
pub mod laws;
pub mod map;
mod packed;
mod search;
mod unfit;
mod weight;
