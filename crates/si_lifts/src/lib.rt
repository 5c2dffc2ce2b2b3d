//! What joining can be refused for, and what the netlist is that it comes to: for each insertion
//! of a
//! part there is one of the composed graph, and so on along the lineages of all parts.
#![tactic(auto)]

pub mod laws;
