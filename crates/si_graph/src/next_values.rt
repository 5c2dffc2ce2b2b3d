//! The next values of all signals at a state, as a code.

ghost use Rattle.std.specs.Prelude.{◌<◌, IfOk};
ghost use Rattle.si_base.specs.Codes.{IsCoded};
ghost use Rattle.si_graph.specs.NextCodes.{AreNextCodes, IsNextCode};

use crate::graph::Graph;
use si_base::ids::{Code, NoMemory, StateId};
use std::alloc::Global;

/// For each state the next values of all signals, in a graph of which these are the codes.
pub(crate) fn nexts_of(alloc: Global, graph: &Graph, codes: &[Code]) -> Result<Vec<Code>, NoMemory>
    requires { IsCoded (record { graph = graph.now; codes = codes.now }) }
    ensures { IfOk result
        (λ nexts. AreNextCodes (record { graph = graph.now; codes = codes.now }) nexts.items) }
{
    let mut nexts = Vec::new(alloc);
    for s in 0..graph.states() {
        nexts.push(next_at(graph, codes, StateId(s)))?;
    }
    Ok(nexts)
}

/// The next values at a state: each arc out of it switches its signal.
fn next_at(graph: &Graph, codes: &[Code], s: StateId) -> Code
    requires coded { IsCoded (record { graph = graph.now; codes = codes.now }) }
    requires state { s < graph.now.states }
    ensures { IsNextCode (record { graph = graph.now; codes = codes.now }) s result }
{
    let mut next = codes[s.0 as usize];
    for arc in graph.arcs_out(s) {
        next = next.set(arc.event.sig, arc.event.up);
    }
    next
}
