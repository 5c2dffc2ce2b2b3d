//! Netlists of a graph without conflicts, and circuits of a lineage: a gate of one style, or a cell
//! of a library, for each signal that the circuit drives.
#![tactic(auto)]

pub mod cells;
pub mod circuit;
mod gates;
pub mod insertion_words;
pub mod laws;
pub mod spelling;
pub mod style;
