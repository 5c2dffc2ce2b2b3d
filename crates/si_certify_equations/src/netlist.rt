//! The netlist of equations beside a graph, or the first cause why there is none.

ghost use Rattle.std.specs.Prelude.{◌≤◌, IfErr, IfOk, Ok, length};
ghost use Rattle.si_base.specs.Limits.{max_signals};
ghost use Rattle.si_certify_equations.specs.Certify as spec;
ghost use Rattle.si_equations.specs.Whole.{AreWhole};
ghost use Rattle.si_equations_reader.specs.Read.{equations_now};
ghost use Rattle.si_from_equations.specs.Given.{AreGiven};
ghost use Rattle.si_refusals.specs.Ending.{MayStop, ending_of};

use crate::limits::MAX_HIDDEN;
use si_base::text::Name;
use si_equations_reader::equations::Equations;
use si_from_equations::beside::netlist_beside;
use si_from_equations::signals::{all_signals, lists_place};
use si_from_equations::unsummed::Unsummed;
use si_graph::coded::Coded;
use si_graph::graph::Graph;
use si_netlist::netlist::Netlist;
use si_refusals::refusals::Refusal;
use si_refusals::rejection::NamedRejection;
use std::alloc::Global;

/// The netlist of the equations of that file beside the graph, of that model's name.
///
/// # Errors
///
/// `ListsDiffer` with the first place at which the lists of both differ, else `Rejected` where too
/// many signals are hidden, with their number, else where an expression multiplies out to too many
/// products, with the first signal. `NoMemory` only where memory runs out.
pub(crate) fn netlist_of_equations<'w>(
    alloc: Global,
    file: &'w str,
    model: Name,
    graph: &Coded,
    equations: &Equations<'_>,
) -> Result<Netlist, Refusal<'w>>
    requires given { AreGiven model graph.now.graph.signals }
    requires whole { AreWhole (equations_now equations.now) }
    ensures ok { IfOk result (λ n. spec.netlist_of_equations file.now model graph.now
        (equations_now equations.now) (Ok n)) }
    ensures err { IfErr result (λ r. MayStop (spec.netlist_of_equations file.now model graph.now
        (equations_now equations.now)) (ending_of r)) }
{
    let given = graph.graph();
    match_signals(file, given, equations)?;
    let signals = all_signals(alloc, given, equations)?;
    few_hidden(signals.len() - given.signals().len())?;
    match netlist_beside(alloc, model, graph, signals, equations) {
        Ok(netlist) => Ok(netlist),
        Err(Unsummed::NoMemory) => Err(Refusal::NoMemory),
        Err(Unsummed::Products { signal }) => Err(Refusal::Rejected {
            reason: NamedRejection::Products { signal },
        }),
    }
}

/// That the equations have the signals of the graph, and no further input.
fn match_signals<'w>(
    file: &'w str,
    graph: &Graph,
    equations: &Equations<'_>,
) -> Result<(), Refusal<'w>>
    requires { length graph.now.signals ≤ max_signals }
    ensures ok { IfOk result (λ done. spec.match_signals file.now graph.now.signals
        (equations_now equations.now) (Ok done)) }
    ensures err { IfErr result (λ r. MayStop (spec.match_signals file.now graph.now.signals
        (equations_now equations.now)) (ending_of r)) }
{
    match lists_place(graph, equations) {
        None => Ok(()),
        Some(place) => Err(Refusal::ListsDiffer { file, place }),
    }
}

/// That not too many signals are hidden.
fn few_hidden(count: usize) -> Result<(), Refusal<'static>>
    requires { count ≤ max_signals }
    ensures ok { IfOk result (λ done. spec.few_hidden count (Ok done)) }
    ensures err { IfErr result (λ r. MayStop (spec.few_hidden count) (ending_of r)) }
{
    if count <= MAX_HIDDEN {
        return Ok(());
    }
    Err(Refusal::Rejected {
        reason: NamedRejection::Hidden {
            count: count as u32,
        },
    })
}
