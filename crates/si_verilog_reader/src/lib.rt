//! The reader of texts of modules of Verilog, as equations: the modules that this tool writes, and
//! others of their form.
#![tactic(auto)]

mod assigns;
mod cells;
pub mod comments;
mod connections;
mod expression;
mod heads;
mod instance;
mod items;
mod keywords;
pub mod laws;
pub mod limits;
mod parts;
pub mod reader;
mod source;
