//! From the text of a graph to the text of its netlist.

ghost use Rattle.std.specs.Prelude.{◌≡◌, IfOk, IfErr, Ok};
ghost use Rattle.si_base.specs.NetlistText.{netlist_text};
ghost use Rattle.si_circuit.specs.Circuits.{AreStateNames, circuit_of};
ghost use Rattle.si_circuit.specs.Spelled.{AreSpelled};
ghost use Rattle.si_stages.specs.Meaning as stage;
ghost use Rattle.si_refusals.specs.Ending.{MayStop, ending_of};

use crate::resolving::resolution;
use si_base::ids::NoMemory;
use si_base::names::Names;
use si_base::text::{Name, Text};
use si_circuit::circuit::Circuit;
use si_circuit::style::Style;
use si_insert::resolved::Resolved;
use si_netlist::write::write_netlist;
use si_readings::readings::graph_in;
use si_refusals::refusals::Refusal;
use si_sg::read::Sg;
use std::alloc::Global;

/// The text of the netlist of the graph that the text spells, with its conflicts resolved and gates
/// of the style. Their sums are prime and irredundant covers.
///
/// # Errors
///
/// `BadText` exactly where the text has a fault, with the first, else `Improper` exactly where the
/// graph isn't proper, with its first breach, else `Unresolved` exactly where resolving leaves a
/// conflict, with the first that is left and the insertions. `NoMemory` only where memory runs out.
pub fn synth<'w>(
    alloc: Global,
    style: Style,
    file: &'w str,
    text: &[u8],
) -> Result<Text, Refusal<'w>>
    ensures ok { IfOk result (λ output. stage.synth style file.now text.now (Ok output)) }
    ensures err { IfErr result
        (λ r. MayStop (stage.synth style file.now text.now) (ending_of r)) }
{
    let Sg {
        model,
        graph,
        states,
    } = graph_in(alloc, file, text)?;
    let resolved = resolution(alloc, graph, &states)?;
    let output = gates_text(alloc, style, resolved, &model, &states)?;
    Ok(output)
}

/// The text of the netlist of the gates of the style for the lineage's current graph.
fn gates_text(
    alloc: Global,
    style: Style,
    resolved: Resolved,
    model: &Name,
    states: &Names,
) -> Result<Text, NoMemory>
    requires spelled { AreSpelled model.now resolved.current.coded.graph.signals }
    requires states { AreStateNames resolved.given.graph states.now }
    ensures { IfOk result
        (λ text. text ≡ netlist_text (circuit_of style model.now states.now resolved)) }
{
    let Ok(circuit) = Circuit::of_style(alloc, resolved, model, states, style) else {
        return Err(NoMemory);
    };
    write_netlist(alloc, circuit.netlist())
}
