//! The lineage that fits a netlist, whatever insertions it spells, found from its gates; or the
//! first reason why none does.
#![tactic(auto)]

pub mod finder;
pub mod laws;
mod next;
pub mod not_found;
mod places;
mod step;
pub mod switch_sets;
mod turn;
mod unbuilt;
