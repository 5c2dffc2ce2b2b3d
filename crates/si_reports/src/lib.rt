//! Reports and replays as rows of stages: from the bytes of texts to what is told of the graph or the
//! netlist that they spell, or a refusal. Each row has exactly one answer.
#![tactic(auto)]

mod fold;
mod linted;
pub mod netlist_report;
mod pictured;
pub mod replay_kind;
pub mod replayed;
pub mod report;
pub mod report_kind;
pub mod verilog;
pub mod wave_laws;
