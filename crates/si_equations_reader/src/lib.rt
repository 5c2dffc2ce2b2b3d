//! The reader of texts of equations, in the form that petrify and SIS use, and the values of the
//! expressions that it has read.
#![tactic(auto)]

pub mod equations;
mod expression;
mod lists;
pub mod machine;
mod marks;
mod meaning;
pub mod names;
pub mod progress;
pub mod reader;
mod statements;
pub mod step;
pub mod symbol;
pub mod values;
