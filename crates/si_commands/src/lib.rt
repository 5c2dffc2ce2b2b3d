//! The words of a command line: the table of the commands, with their forms; what words ask for;
//! and the help.
#![tactic(auto)]

pub mod about;
pub mod command;
pub mod form;
pub mod laws;
pub mod notes;
pub mod table;
pub mod task;
