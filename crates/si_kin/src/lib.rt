//! States that input events join, each in either direction: their classes, and their conflicts,
//! which no insertion resolves.
#![tactic(auto)]

mod alike;
mod forest;
pub mod kin;
pub mod laws;
