//! From the text of a graph to the text of the graph after insertions that are suggested for it.

ghost use Rattle.std.specs.Prelude.{◌≡◌, ℕ, List, IfOk, IfErr, Ok};
ghost use Rattle.si_circuit.specs.Circuits.{AreStateNames};
ghost use Rattle.si_circuit.specs.Spelled.{AreSpelled};
ghost use Rattle.si_insert.specs.Lineage.{AllGiven};
ghost use Rattle.si_refusals.specs.Ending.{MayStop, ending_of};
ghost use Rattle.si_suggestion.specs.Suggested as stage;

use crate::suggested::suggested_circuit;
use si_base::names::Names;
use si_base::text::{Name, Text};
use si_checks::proper::Proper;
use si_circuit::style::Style;
use si_inserted::text::current_text;
use si_readings::checks::proper_of;
use si_readings::readings::graph_in;
use si_refusals::refusals::Refusal;
use si_sg::read::Sg;
use std::alloc::Global;

/// The text of the graph that the text spells, after the insertions of a netlist of complex gates
/// that is suggested for it: its inserted signals are internal ones.
///
/// # Errors
///
/// Those of `suggest_text`.
pub fn resolve_suggested<'w>(alloc: Global, file: &'w str, text: &[u8]) -> Result<Text, Refusal<'w>>
    ensures ok { IfOk result (λ output. stage.resolve_suggested file.now text.now (Ok output)) }
    ensures err { IfErr result
        (λ r. MayStop (stage.resolve_suggested file.now text.now) (ending_of r)) }
{
    let Sg {
        model,
        graph,
        states,
    } = graph_in(alloc, file, text)?;
    let given = proper_of(alloc, graph, &states)?;
    suggested_graph(alloc, &given, &model, &states)
}

/// The text of the graph, whose states have these names, after the insertions that are suggested.
fn suggested_graph(
    alloc: Global,
    given: &Proper,
    model: &Name,
    states: &Names,
) -> Result<Text, Refusal<'static>>
    requires given { AllGiven given.now.graph.signals }
    requires spelled { AreSpelled model.now given.now.graph.signals }
    requires states { AreStateNames given.now.graph states.now }
    ensures ok { IfOk result
        (λ output. stage.suggested_graph model.now states.now given.now (Ok output)) }
    ensures err { IfErr result (λ r. MayStop
        (stage.suggested_graph model.now states.now given.now) (ending_of r)) }
{
    let circuit = suggested_circuit(alloc, Style::Complex, given, model, states)?;
    let output = current_text(alloc, circuit.resolved().lineage(), model, states)?;
    Ok(output)
}
