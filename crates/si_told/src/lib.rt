//! What reports that tell all of a kind have in common: lists of all that have a property, the first
//! 1,000 of a kind, how many lines there would be, and the states that were dropped.
#![tactic(auto)]

pub mod lines;
