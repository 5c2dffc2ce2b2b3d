//! The command `same` as a row of stages: from the texts of two graphs to whether they behave alike,
//! or to the first walk after which they don't.
#![tactic(auto)]

pub mod same;
