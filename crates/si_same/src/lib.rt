//! Whether two graphs behave alike, and the first difference of two that don't.
#![tactic(auto)]

mod apart;
pub mod laws;
mod pairs;
pub mod search;
mod ties;
