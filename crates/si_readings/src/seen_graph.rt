//! What is read of a graph, proper or not.

ghost use Rattle.std.specs.Prelude.{IfOk};
ghost use Rattle.si_base.specs.Codes.{IsConnected};
ghost use Rattle.si_checks.specs.Faults.{ShowsImproper};
ghost use Rattle.si_graph.specs.Faults.{ShowsUncoded};
ghost use Rattle.si_readings.specs.SeenGraph.{IsSeen};

use si_base::ids::NoMemory;
use si_checks::proper::{Improper, Proper};
use si_graph::coded::{CodeFault, Coded};
use si_graph::graph::Graph;
use si_pictures::seen::{Breach, Seen};
use std::alloc::Global;

/// What is read of the graph: its codes, where it has any, and its first breach, where it isn't
/// proper. It fails only where memory runs out.
pub fn seen_of(alloc: Global, graph: Graph) -> Result<Seen, NoMemory>
    requires { IsConnected graph }
    ensures { IfOk result (IsSeen graph) }
{
    let coded = match Coded::make(alloc, graph) {
        Ok(coded) => coded,
        Err((graph, fault)) => return without_codes(graph, fault),
    };
    match Proper::make(alloc, coded) {
        Ok(proper) => Ok(Seen::Proper(proper)),
        Err((coded, fault)) => with_codes(coded, fault),
    }
}

/// A graph that has no codes, with its first breach.
fn without_codes(graph: Graph, fault: CodeFault) -> Result<Seen, NoMemory>
    requires { ShowsUncoded graph fault }
    ensures { IfOk result (IsSeen graph) }
{
    match fault {
        CodeFault::NoMemory => Err(NoMemory),
        CodeFault::Nondeterministic { s, e, t, u } => {
            Ok(Seen::Uncoded(graph, Breach::Nondeterministic { s, e, t, u }))
        }
        CodeFault::Inconsistent { sig } => Ok(Seen::Uncoded(graph, Breach::Inconsistent { sig })),
    }
}

/// A graph that has codes and isn't proper, with its first breach.
fn with_codes(coded: Coded, fault: Improper) -> Result<Seen, NoMemory>
    requires { ShowsImproper coded.graph fault }
    ensures { IfOk result (IsSeen coded.graph) }
{
    let _graph = coded.graph();
    match fault {
        Improper::NoMemory => Err(NoMemory),
        Improper::Noncommutative { s, a, c, .. } => {
            Ok(Seen::Coded(coded, Breach::Noncommutative { s, a, c }))
        }
        Improper::Nonpersistent { s, lost, by } => {
            Ok(Seen::Coded(coded, Breach::Nonpersistent { s, lost, by }))
        }
    }
}
