//! Resolving of conflicts by the insertion of signals: by the best candidate of a graph, again and
//! again, until no conflict is left.
#![tactic(auto)]

mod aspects;
pub mod best;
mod block_list;
mod by_sides;
mod counts;
pub mod ends;
pub mod laws;
pub mod resolve;
mod search;
