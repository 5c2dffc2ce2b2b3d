//! Netlists of cells as structural Verilog: what the text is, what it means, which netlists have
//! one, and its writer.
#![tactic(auto)]

mod cells;
pub mod complements;
pub mod decide;
mod heads;
mod instance_names;
mod inverters;
pub mod laws;
mod lookup;
mod placements;
pub mod refusal;
mod reset;
pub mod write;
