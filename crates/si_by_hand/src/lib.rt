//! The command that inserts a signal by its gate as a row of stages: from the text of a graph and
//! that of one gate line to the text of the graph after the insertion of the signal, by the least
//! partition for which that gate is right.
#![tactic(auto)]

pub mod by_hand;
mod forcing;
pub mod gate_text;
pub mod laws;
mod partitions;
pub mod readings;
