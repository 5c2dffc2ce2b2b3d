//! Which states walks along the arcs of the C-element reach.

ghost use Rattle.std.specs.Prelude.{◌≡◌, IfOk};

use crate::graphs::LATCH;
use crate::sets::{holds_just, set_of};
use si_graph::closure::{Along, closure};
use si_graph::graph::Graph;
use si_sg::read::read_sg;
use std::alloc::Global;
use std::process::Abort;
use std::test::Fail;

fn c_element(rt: &impl Abort, alloc: Global) -> Result<Graph, Fail>
    ensures { IfOk result (λ g. g.states ≡ 8) }
{
    let given = read_sg(alloc, LATCH)?;
    let graph = given.graph;
    assert!(rt; graph.states() == 8 && graph.edges() == 10);
    Ok(graph)
}

/// Says that the walks of the kind from the state 3 by way of the states 1, 2, 4 and 5 reach these
/// states.
fn expect_closure(
    rt: &impl Abort,
    alloc: Global,
    graph: &Graph,
    along: Along,
    states: &[u32],
) -> Result<(), Fail>
    requires { graph.now.states ≡ 8 }
{
    let within = set_of(rt, alloc, 8, [1, 2, 4, 5].as_slice())?;
    let seeds = set_of(rt, alloc, 8, [3].as_slice())?;
    let reached = closure(alloc, graph, along, &within, &seeds)?;
    assert!(rt; holds_just(&reached, states));
    Ok(())
}

#[test]
fn closures_within_sets(rt: HostRuntime) -> Result<(), Fail> {
    let alloc = rt.alloc();
    let graph = c_element(&rt, alloc)?;
    expect_closure(&rt, alloc, &graph, Along::Out, [3, 4, 5].as_slice())?;
    expect_closure(&rt, alloc, &graph, Along::In, [3, 1, 2].as_slice())?;
    expect_closure(&rt, alloc, &graph, Along::Both, [1, 2, 3, 4, 5].as_slice())
}
