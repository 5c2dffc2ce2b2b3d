//! Which signals the first paths to the states switch an odd number of times.

ghost use Rattle.std.specs.Prelude.{◌≡◌, ◌<◌, IfOk, All, length, map};
ghost use Rattle.si_breaches.specs.Loops.Breaches.{AreParities};
ghost use Rattle.si_breaches.specs.Loops.Jumps.{AreJumps, IsJump, doubled_of, twice_by};
ghost use Rattle.si_walks.specs.Tree.{IsTree, last_at};

use si_base::graph::Edge;
use si_base::ids::{Code, NoMemory, StateId};
use si_graph::graph::Graph;
use std::alloc::Global;

/// A state that lies before another on the first path to it, and the signals that the arcs from
/// there switch an odd number of times.
#[derive(Clone, Copy)]
pub(crate) struct Jump {
    to: StateId,
    change: Code,
}

/// How often jumps are doubled: no first path has more than 2 ^ 18 arcs.
const DOUBLINGS: u32 = 18;

/// For each state, as the bits of a code, the signals that the first path to it switches an odd
/// number of times. It fails only where memory runs out.
///
/// Paths share their beginnings, so jumps back along them are doubled, all at once.
pub(crate) fn parities(
    alloc: Global,
    graph: &Graph,
    last: &[Option<Edge>],
) -> Result<Vec<Code>, NoMemory>
    requires { IsTree graph.now last.now }
    ensures { IfOk result (λ codes. AreParities graph.now codes.items) }
{
    let _arcs = graph.arcs();
    let mut jumps = first_jumps(alloc, graph, last)?;
    for _round in 0..DOUBLINGS {
        jumps = doubled(alloc, jumps.as_slice())?;
    }
    let codes = changes_of(alloc, jumps.as_slice())?;
    Ok(codes)
}

/// What the jumps tell, in their order.
fn changes_of(alloc: Global, jumps: &[Jump]) -> Result<Vec<Code>, NoMemory>
    ensures { IfOk result (λ codes. codes.items ≡ map (λ j. j.change) jumps.now) }
{
    let mut codes: Vec<Code> = Vec::new(alloc);
    for jump in jumps {
        codes.push(jump.change)?;
    }
    Ok(codes)
}

/// The jumps by one arc.
fn first_jumps(alloc: Global, graph: &Graph, last: &[Option<Edge>]) -> Result<Vec<Jump>, NoMemory>
    requires { IsTree graph.now last.now }
    ensures { IfOk result (λ jumps. AreJumps graph.now 1 jumps.items) }
{
    let _arcs = graph.arcs();
    let mut jumps: Vec<Jump> = Vec::new(alloc);
    for k in 0..graph.states() {
        jumps.push(first_jump(graph, last, StateId(k)))?;
    }
    Ok(jumps)
}

/// The jump by the last arc of the path to a state.
fn first_jump(graph: &Graph, last: &[Option<Edge>], s: StateId) -> Jump
    requires state { s < graph.now.states }
    requires tree { IsTree graph.now last.now }
    ensures { (tree : IsTree graph.now last.now) → IsJump graph.now tree.path 1 s result }
{
    let _arcs = graph.arcs();
    match last_of(last, s) {
        None => Jump {
            to: s,
            change: Code(0),
        },
        Some(arc) => Jump {
            to: arc.from,
            change: Code(0).flip(arc.event.sig),
        },
    }
}

/// The last arc of the path to a state.
fn last_of(last: &[Option<Edge>], s: StateId) -> Option<Edge>
    requires { s < length last.now }
    ensures { result ≡ last_at last.now s }
{
    last[s.0 as usize]
}

/// Jumps twice as long.
fn doubled(alloc: Global, jumps: &[Jump]) -> Result<Vec<Jump>, NoMemory>
    requires { All (λ j. j.to < length jumps.now) jumps.now }
    ensures { IfOk result (λ twice. twice.items ≡ doubled_of jumps.now) }
{
    let mut twice: Vec<Jump> = Vec::new(alloc);
    for jump in jumps {
        twice.push(jump_twice(jumps, jump))?;
    }
    Ok(twice)
}

/// The jump, and that of the state to which it leads.
fn jump_twice(jumps: &[Jump], jump: &Jump) -> Jump
    requires { jump.now.to < length jumps.now }
    ensures { result ≡ twice_by jumps.now jump.now }
{
    let before = jumps[jump.to.0 as usize];
    Jump {
        to: before.to,
        change: Code(jump.change.0 ^ before.change.0),
    }
}
