//! Worked examples of the definitions, and tests of calls. Nothing stands on this crate, so that a
//! new example proves nothing else anew, and each crate below is proved but once. What a definition
//! says is worked out in `proofs`; what a call makes of a text is tried by whole runs.
#![tactic(auto)]

#[cfg(test)]
mod base_tests;
#[cfg(test)]
mod block_tests;
#[cfg(test)]
mod cube_tests;
#[cfg(test)]
mod divisor_tests;
#[cfg(test)]
mod graph_tests;
#[cfg(test)]
mod graphs;
#[cfg(test)]
mod netlist_reader_tests;
#[cfg(test)]
mod sets;
