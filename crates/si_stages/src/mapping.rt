//! From the texts of a graph and a library to the text of a netlist of cells.

ghost use Rattle.std.specs.Prelude.{◌≡◌, ℕ, List, IfOk, IfErr, Ok, length};
ghost use Rattle.si_refusals.specs.Ending.{MayStop, ending_of};
ghost use Rattle.si_base.specs.NetlistText.{netlist_text};
ghost use Rattle.si_cell.specs.Library.{IsLibrary};
ghost use Rattle.si_circuit.specs.Circuits.{AreStateNames};
ghost use Rattle.si_circuit.specs.Spelled.{AreSpelled};
ghost use Rattle.si_readings.specs.Checks.{IsNamed};
ghost use Rattle.si_refusals.specs.Ending as ending;
ghost use Rattle.si_sg.specs.GivenGraph.{IsGivenBy, sg_now};
ghost use Rattle.si_stages.specs.Mapping.{IsCellsText, TellsStuck, shows_unfit};
ghost use Rattle.si_stages.specs.Meaning as meaning;

use crate::resolving::resolution;
use si_base::ids::NoMemory;
use si_base::names::Names;
use si_base::text::{Name, Text};
use si_cell::library::Library;
use si_circuit::spelling::insertions;
use si_insert::resolved::Resolved;
use si_map::map::{MapStuck, Unmapped, map_cells};
use si_netlist::netlist::Netlist;
use si_netlist::write::write_netlist;
use si_readings::library_format::LibraryFormat;
use si_readings::readings::{MappingReadings, mapping_readings};
use si_refusals::breach::name_of_signal;
use si_refusals::refusals::Refusal;
use si_sg::read::Sg;
use std::alloc::Global;

/// The text of the netlist of the graph that the text spells, with its conflicts resolved and
/// further signals inserted until each that the circuit drives fits a cell, and of the first
/// fitting instances of the library that the other text spells in the format. Where its pins are to
/// be plain, the netlist is cells and wires: each pin of each gate reads a signal as it is. A
/// refusal shows the names of the texts' files.
///
/// # Errors
///
/// `BadText` with the first fault of the texts in their order, else `Improper` exactly where the
/// graph isn't proper, with its first breach, else `Unresolved` exactly where resolving leaves a
/// conflict, with the first that is left and the insertions, else `Unmapped` exactly where some
/// signal that the circuit drives fits no cell and no divisor serves, with the first and the
/// insertions. `NoMemory` only where memory runs out.
pub fn map_texts<'w>(
    alloc: Global,
    format: LibraryFormat,
    graph_file: &'w str,
    graph: &[u8],
    library_file: &'w str,
    library: &[u8],
) -> Result<Text, Refusal<'w>>
    ensures ok { IfOk result (λ output. meaning.mapping format graph_file.now graph.now
        library_file.now library.now (Ok output)) }
    ensures err { IfErr result (λ r. MayStop (meaning.mapping format graph_file.now graph.now
        library_file.now library.now) (ending_of r)) }
{
    let readings = mapping_readings(alloc, format, graph_file, graph, library_file, library)?;
    let MappingReadings { given, library } = readings;
    mapped_text(alloc, given, &library)
}

/// The text of the netlist of cells of the library for a graph that was read.
fn mapped_text(alloc: Global, given: Sg, cells: &Library) -> Result<Text, Refusal<'static>>
    requires library { IsLibrary cells.now }
    requires given { (text : List ℕ) × IsGivenBy text (sg_now given) }
    requires named { IsNamed given.graph given.states }
    ensures ok { IfOk result (λ output. meaning.mapped_text cells.now (sg_now given) (Ok output)) }
    ensures err { IfErr result
        (λ r. MayStop (meaning.mapped_text cells.now (sg_now given)) (ending_of r)) }
{
    let Sg {
        model,
        graph,
        states,
    } = given;
    let resolved = resolution(alloc, graph, &states)?;
    cells_text(alloc, resolved, cells, &model, &states)
}

/// The text of the netlist of cells for the lineage, or the first signal that fits none.
pub fn cells_text(
    alloc: Global,
    resolved: Resolved,
    cells: &Library,
    model: &Name,
    states: &Names,
) -> Result<Text, Refusal<'static>>
    requires spelled { AreSpelled model.now resolved.current.coded.graph.signals }
    requires states { AreStateNames resolved.given.graph states.now }
    ensures ok { IfOk result (λ text. IsCellsText cells.now model.now states.now resolved text) }
    ensures err { IfErr result
        (λ r. MayStop (shows_unfit cells.now states.now resolved) (ending_of r)) }
{
    match map_cells(alloc, resolved, cells, model, states) {
        Ok(circuit) => text_of(alloc, circuit.netlist()),
        Err(Unmapped { resolved, cause }) => Err(unfit_refusal(alloc, &resolved, states, cause)?),
    }
}

/// The text of the netlist.
fn text_of(alloc: Global, netlist: &Netlist) -> Result<Text, Refusal<'static>>
    ensures ok { IfOk result (λ text. text ≡ netlist_text netlist.now) }
    ensures err { IfErr result (λ r. ending_of r ≡ ending.NoMemory) }
{
    match write_netlist(alloc, netlist) {
        Ok(text) => Ok(text),
        Err(_) => Err(Refusal::NoMemory),
    }
}

/// The first signal of the lineage's current graph that fits no cell, and the insertions.
fn unfit_refusal(
    alloc: Global,
    resolved: &Resolved,
    states: &Names,
    cause: MapStuck,
) -> Result<Refusal<'static>, NoMemory>
    requires names { length states.now ≡ resolved.now.given.graph.states }
    ensures { IfOk result (λ r. TellsStuck states.now resolved.now cause (ending_of r)) }
{
    match cause {
        MapStuck::NoMemory => Err(NoMemory),
        MapStuck::Signal { sig } => {
            let lineage = resolved.lineage();
            let signals = lineage.current().coded().graph().signals();
            Ok(Refusal::Unmapped {
                signal: name_of_signal(alloc, signals, sig)?,
                inserts: insertions(alloc, lineage, states)?,
            })
        }
    }
}
