//! Whether pairs of arcs out of a state close to squares.

ghost use Rattle.std.specs.Prelude.{◌<◌, ◌↔◌, IsTrue, All, length};
ghost use Rattle.si_base.specs.Codes.{IsDeterministic};
ghost use Rattle.si_checks.specs.Loops.Squares.{ClosesSquare, ClosesSquares};

use si_base::graph::Edge;
use si_base::ids::StateId;
use si_graph::graph::Graph;

/// Whether any two arcs out of the state, of different events, close a square. Each pair is
/// looked at once.
pub fn close_squares(graph: &Graph, s: StateId) -> bool
    requires { IsDeterministic graph.now }
    ensures { IsTrue result ↔ ClosesSquares graph.now s }
{
    let arcs = graph.arcs_out(s);
    for k in 0..arcs.len() {
        let (_, later) = arcs.split_at(k + 1);
        if !closes_with_each(graph, &arcs[k], later) {
            return false;
        }
    }
    true
}

/// Whether the arc closes a square with each of the others.
fn closes_with_each(graph: &Graph, x: &Edge, others: &[Edge]) -> bool
    requires deterministic { IsDeterministic graph.now }
    requires signal { x.now.event.sig < length graph.now.signals }
    requires signals { All (λ y. y.event.sig < length graph.now.signals) others.now }
    ensures { IsTrue result ↔ All (ClosesSquare graph.now x.now) others.now }
{
    for y in others {
        if !closes(graph, x, y) {
            return false;
        }
    }
    true
}

/// Whether the two arcs close a square.
fn closes(graph: &Graph, x: &Edge, y: &Edge) -> bool
    requires deterministic { IsDeterministic graph.now }
    requires signal { x.now.event.sig < length graph.now.signals }
    requires other_signal { y.now.event.sig < length graph.now.signals }
    ensures { IsTrue result ↔ ClosesSquare graph.now x.now y.now }
{
    let one = graph.succ(x.to, y.event);
    let other = graph.succ(y.to, x.event);
    match (one, other) {
        (Some(w), Some(w2)) => w == w2,
        (None, Some(_)) => !graph.is_driven(y.event.sig),
        (Some(_), None) => !graph.is_driven(x.event.sig),
        (None, None) => !graph.is_driven(x.event.sig) && !graph.is_driven(y.event.sig),
    }
}
