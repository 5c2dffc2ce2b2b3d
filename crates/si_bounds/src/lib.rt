//! What signals add to the weight at least once a further signal is inserted: bounds by which most
//! insertions are dropped before they are made.
#![tactic(auto)]

pub mod bounds;
mod kept;
mod least;
mod needs;
mod points;
mod supports;
mod unfit;
pub mod waiting;
