//! From a graph, proper or not, to its picture or the list of its states.

ghost use Rattle.std.specs.Prelude.{IfErr, IfOk, Ok};
ghost use Rattle.si_readings.specs.Checks.{IsNamed};
ghost use Rattle.si_refusals.specs.Ending.{MayStop, ending_of};
ghost use Rattle.si_reports.specs.Pictured as stage;

use si_base::names::Names;
use si_base::text::{Name, Text};
use si_graph::graph::Graph;
use si_pictures::dot_text::draw;
use si_pictures::states_text::list_states;
use si_readings::seen_graph::seen_of;
use si_refusals::refusals::Refusal;
use std::alloc::Global;

/// The picture of the graph with this model and these names of its states. It fails only where
/// memory runs out.
pub(crate) fn drawn(
    alloc: Global,
    graph: Graph,
    model: &Name,
    states: &Names,
) -> Result<Text, Refusal<'static>>
    requires { IsNamed graph states.now }
    ensures ok { IfOk result (λ output. stage.drawn model.now states.now graph (Ok output)) }
    ensures err { IfErr result
        (λ r. MayStop (stage.drawn model.now states.now graph) (ending_of r)) }
{
    let seen = seen_of(alloc, graph)?;
    let output = draw(alloc, &seen, model.bytes(), states)?;
    Ok(output)
}

/// The list of the states of the graph, which have these names. It fails only where memory runs
/// out.
pub(crate) fn listed(alloc: Global, graph: Graph, states: &Names) -> Result<Text, Refusal<'static>>
    requires { IsNamed graph states.now }
    ensures ok { IfOk result (λ output. stage.listed states.now graph (Ok output)) }
    ensures err { IfErr result (λ r. MayStop (stage.listed states.now graph) (ending_of r)) }
{
    let seen = seen_of(alloc, graph)?;
    let output = list_states(alloc, &seen, states)?;
    Ok(output)
}
