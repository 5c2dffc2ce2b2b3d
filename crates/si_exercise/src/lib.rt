//! Handshakes, exercised: their graph is made, checked and synthesised, and its sizes are told. No
//! check refuses it.
#![tactic(auto)]

pub mod exercise;
mod literals;
