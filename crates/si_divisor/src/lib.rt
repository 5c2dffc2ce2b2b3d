//! Divisors: the instances by which a signal that fits no cell is taken apart, and the partitions
//! that make an instance the gate of a new signal.
#![tactic(auto)]

mod classes;
pub mod divisor_laws;
pub mod divisors;
pub mod fault;
mod forced;
pub mod function;
pub mod function_sets;
pub mod laws;
pub mod partition_for;
pub mod pins;
mod settled;
mod switching;
