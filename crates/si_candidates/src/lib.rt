//! Candidates for the insertion of a signal: where it may rise, and where it may fall.
#![tactic(auto)]

pub mod block;
pub mod blocks;
pub mod by_sides;
pub mod classes;
mod earlier;
pub mod interval;
mod intervals;
pub mod laws;
pub mod many_sides;
pub mod may_switch;
pub mod part_laws;
mod parts;
pub mod sides;
pub mod tree;
