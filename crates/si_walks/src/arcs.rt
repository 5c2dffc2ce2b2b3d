//! Which arcs walks take.

ghost use Rattle.std.specs.Prelude.{◌↔◌, ◌<◌, IsTrue, length};
ghost use Rattle.si_walks.specs.Walks.{Takes};

use si_base::ids::Event;
use si_graph::graph::Graph;

/// The arcs that walks take.
#[derive(Clone, Copy, PartialEq, Eq, Debug)]
pub enum Arcs {
    All,
    /// Those of input events alone.
    OfInputs,
}

/// Whether walks along these arcs take arcs by the event.
pub(crate) fn takes(graph: &Graph, arcs: &Arcs, e: Event) -> bool
    requires { e.sig < length graph.now.signals }
    ensures { IsTrue result ↔ Takes graph.now arcs.now e }
{
    match arcs {
        Arcs::All => true,
        Arcs::OfInputs => !graph.is_driven(e.sig),
    }
}
