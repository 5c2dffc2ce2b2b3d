//! Netlists in the texts of other tools, as rows of stages: from the bytes of texts to equations,
//! to modules of Verilog, over a library and with a reset input, to commands for a timing tool, or
//! a refusal. Each row has exactly one answer.
#![tactic(auto)]

pub mod equations;
mod ported;
pub mod resettable;
pub mod structure;
pub mod timing;
