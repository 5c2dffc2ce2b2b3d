//! Libraries in genlib: the grammar and the values of expressions, the cells that gates become, and
//! the reader; and the writer of library texts.
#![tactic(auto)]

mod cell;
pub mod cell_laws;
mod demand;
mod expression;
mod gate;
mod gate_ports;
pub mod laws;
pub mod limits;
mod pins;
pub mod ports;
pub mod reader;
mod statements;
mod symbol;
mod table;
pub mod write;
pub mod written_laws;
