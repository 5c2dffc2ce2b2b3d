//! From the texts of a graph and a library to the text of a netlist of cells, over insertions that
//! are suggested for the graph.

ghost use Rattle.std.specs.Prelude.{◌≡◌, ◌≢◌, ℕ, List, AllPairs, IfOk, IfErr, Ok, length};
ghost use Rattle.si_base.specs.Proper.{HasNoConflict};
ghost use Rattle.si_cell.specs.Library.{IsLibrary};
ghost use Rattle.si_circuit.specs.declared.style.Style.TheVariants.{Complex};
ghost use Rattle.si_readings.specs.Checks.{IsNamed, IsSound};
ghost use Rattle.si_refusals.specs.Ending.{MayStop, ending_of};
ghost use Rattle.si_refusals.specs.Ending as ending;
ghost use Rattle.si_sg.specs.GivenGraph.{IsGivenBy, sg_now};
ghost use Rattle.si_suggestion.specs.Suggested as stage;
ghost use Rattle.si_suggestion.specs.Suggestion.{IsItsCircuit};

use crate::suggested::suggested_circuit;
use si_audit::walk::lineage_of;
use si_base::ids::NoMemory;
use si_base::names::Names;
use si_base::text::Text;
use si_cell::library::Library;
use si_checks::proper::Proper;
use si_circuit::circuit::Circuit;
use si_circuit::style::Style;
use si_insert::resolved::Resolved;
use si_readings::checks::proper_of;
use si_readings::library_format::LibraryFormat;
use si_readings::readings::{MappingReadings, mapping_readings};
use si_refusals::refusals::Refusal;
use si_sg::read::Sg;
use si_stages::mapping::cells_text;
use std::alloc::Global;

/// The text of the netlist of the graph that the text spells, with the insertions of a netlist of
/// complex gates that is suggested for it, and further signals inserted until each that the circuit
/// drives fits a cell, and of the first fitting instances of the library that the other text spells
/// in the format: as `map_texts` does, but for the first insertions.
///
/// # Errors
///
/// `BadText` with the first fault of the texts in their order, else `Improper` exactly where the
/// graph isn't proper, with its first breach, else those of `suggest_text`, else `Unmapped` exactly
/// where some signal that the circuit drives fits no cell and no divisor serves, with the first and
/// the insertions. `NoMemory` only where memory runs out.
pub fn map_suggested<'w>(
    alloc: Global,
    format: LibraryFormat,
    graph_file: &'w str,
    graph: &[u8],
    library_file: &'w str,
    library: &[u8],
) -> Result<Text, Refusal<'w>>
    ensures ok { IfOk result (λ output. stage.map_suggested format graph_file.now graph.now
        library_file.now library.now (Ok output)) }
    ensures err { IfErr result (λ r. MayStop (stage.map_suggested format graph_file.now graph.now
        library_file.now library.now) (ending_of r)) }
{
    let readings = mapping_readings(alloc, format, graph_file, graph, library_file, library)?;
    let MappingReadings { given, library } = readings;
    suggested_mapping(alloc, given, &library)
}

/// The text of the netlist of cells of the library for a graph that was read.
fn suggested_mapping(alloc: Global, given: Sg, cells: &Library) -> Result<Text, Refusal<'static>>
    requires library { IsLibrary cells.now }
    requires given { (text : List ℕ) × IsGivenBy text (sg_now given) }
    requires named { IsNamed given.graph given.states }
    ensures ok { IfOk result
        (λ output. stage.suggested_mapping cells.now (sg_now given) (Ok output)) }
    ensures err { IfErr result
        (λ r. MayStop (stage.suggested_mapping cells.now (sg_now given)) (ending_of r)) }
{
    let Sg {
        model,
        graph,
        states,
    } = given;
    let proper = proper_of(alloc, graph, &states)?;
    let circuit = suggested_circuit(alloc, Style::Complex, &proper, &model, &states)?;
    let resolved = lineage_again(alloc, proper, &states, &circuit)?;
    cells_text(alloc, resolved, cells, &model, &states)
}

/// The lineage of the circuit once more, for further insertions: its netlist tells it.
fn lineage_again(
    alloc: Global,
    given: Proper,
    states: &Names,
    circuit: &Circuit,
) -> Result<Resolved, NoMemory>
    requires sound { IsSound given.graph given }
    requires count { length states.now ≡ given.graph.states }
    requires apart { AllPairs (λ x y. x ≢ y) states.now }
    requires suggested { (model : List ℕ)
        × IsItsCircuit Complex model states.now given circuit.now }
    ensures { IfOk result (λ l. l ≡ circuit.now.lineage) }
{
    match lineage_of(alloc, given, states, circuit.netlist()) {
        Ok(lineage) => Ok(Resolved::known(lineage)),
        // its own insertions are taken: only memory can be wanting
        Err(_) => Err(NoMemory),
    }
}
