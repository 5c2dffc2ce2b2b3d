//! From a text to what is worth a second look of its graph.

ghost use Rattle.std.specs.Prelude.{◌≡◌, IfErr, IfOk, Ok, length};
ghost use Rattle.si_base.specs.Codes.{IsConnected};
ghost use Rattle.si_pictures.specs.Seen.{graph_of};
ghost use Rattle.si_readings.specs.Checks.{IsNamed};
ghost use Rattle.si_refusals.specs.Ending.{MayStop, ending_of};
ghost use Rattle.si_reports.specs.Linted as stage;
ghost use Rattle.si_reports.specs.Linted.{whole_now};

use si_base::fault::TextFault;
use si_base::ids::NoMemory;
use si_base::names::Names;
use si_base::text::Text;
use si_breaches::breach_report::list_breaches;
use si_graph::graph::Graph;
use si_lint::lint::lint;
use si_pictures::seen::Seen;
use si_readings::seen_graph::seen_of;
use si_refusals::refusals::Refusal;
use si_sg::read::{Whole, read_with_dropped};
use std::alloc::Global;

/// The graph that the text gives, and the names of the states that it hasn't.
pub(crate) fn whole_in<'w>(alloc: Global, file: &'w str, text: &[u8]) -> Result<Whole, Refusal<'w>>
    ensures ok { IfOk result (λ w. stage.whole_in file.now text.now (Ok (whole_now w))) }
    ensures err { IfErr result (λ r. MayStop (stage.whole_in file.now text.now) (ending_of r)) }
    ensures named { IfOk result (λ w. IsNamed w.sg.graph w.sg.states) }
{
    match read_with_dropped(alloc, text) {
        Ok(whole) => Ok(whole),
        Err(TextFault::NoMemory) => Err(Refusal::NoMemory),
        Err(TextFault::At { line, kind }) => Err(Refusal::BadText { file, line, kind }),
    }
}

/// What is told of the graph with these names of its states and of those that were dropped: of a
/// proper graph what is worth a second look, and of any other all its breaches. It fails only where
/// memory runs out.
pub(crate) fn told(
    alloc: Global,
    graph: Graph,
    states: &Names,
    dropped: &Names,
) -> Result<Text, Refusal<'static>>
    requires { IsNamed graph states.now }
    ensures ok { IfOk result (λ output. stage.told states.now dropped.now graph (Ok output)) }
    ensures err { IfErr result
        (λ r. MayStop (stage.told states.now dropped.now graph) (ending_of r)) }
{
    let seen = seen_of(alloc, graph)?;
    let output = told_of(alloc, &seen, states, dropped)?;
    Ok(output)
}

/// The same of a graph as it was read.
fn told_of(alloc: Global, seen: &Seen, states: &Names, dropped: &Names) -> Result<Text, NoMemory>
    requires connected { IsConnected (graph_of seen.now) }
    requires names { length states.now ≡ (graph_of seen.now).states }
    ensures { IfOk result (stage.IsTold states.now dropped.now seen.now) }
{
    match seen {
        Seen::Proper(proper) => lint(alloc, proper, states, dropped),
        Seen::Coded(coded, _) => list_breaches(alloc, coded.graph(), states, dropped),
        Seen::Uncoded(graph, _) => list_breaches(alloc, graph, states, dropped),
    }
}
