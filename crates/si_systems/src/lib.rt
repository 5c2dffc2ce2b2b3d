//! The commands `compose` and `product`, each as a row of stages: from the texts of graphs to the
//! text of the graph of all of them side by side, or of their product, or to the first cause
//! against it.
#![tactic(auto)]

pub mod compose;
mod halts;
pub mod laws;
mod names;
pub mod product;
