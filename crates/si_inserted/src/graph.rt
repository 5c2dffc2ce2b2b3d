//! A graph whose inserted signals become internal ones.

ghost use Rattle.std.specs.Prelude.{◌≡◌, IfOk, map};
ghost use Rattle.si_inserted.specs.Current as current;

use si_base::graph::{SigKind, Signal};
use si_base::ids::NoMemory;
use si_base::text::Name;
use si_graph::graph::Graph;
use std::alloc::Global;

/// The same graph, where each inserted signal is an internal one. It fails only where memory runs
/// out.
pub(crate) fn internal_graph(alloc: Global, graph: &Graph) -> Result<Graph, NoMemory>
    ensures { IfOk result (λ g. g ≡ current.internal_graph graph.now) }
{
    let edges = Vec::from_slice(alloc, graph.arcs())?;
    let signals = given_signals(alloc, graph.signals())?;
    Graph::make(alloc, signals, graph.states(), edges, graph.start())
}

/// The signals, where each inserted one is an internal one.
fn given_signals(alloc: Global, signals: &[Signal]) -> Result<Vec<Signal>, NoMemory>
    ensures { IfOk result (λ given. given.items ≡ map current.given_signal signals.now) }
{
    let mut given = Vec::new(alloc);
    for signal in signals {
        given.push(Signal {
            name: Name::copy_of(alloc, signal.name.bytes())?,
            kind: given_kind(signal.kind),
        })?;
    }
    Ok(given)
}

/// Internal for an inserted signal, and what the signal was for the others.
fn given_kind(kind: SigKind) -> SigKind
    ensures { result ≡ current.given_kind kind }
{
    match kind {
        SigKind::Input => SigKind::Input,
        SigKind::Output => SigKind::Output,
        SigKind::Internal | SigKind::Inserted => SigKind::Internal,
    }
}
