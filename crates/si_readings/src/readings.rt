//! Reading the texts of a command. A refusal shows the name of the text's file.

ghost use Rattle.std.specs.Prelude.{◌<◌, All, IfOk, IfErr, length, Ok};
ghost use Rattle.si_sg.specs.GivenGraph.{sg_now};
ghost use Rattle.si_readings.specs.Checks.{IsNamed};
ghost use Rattle.si_base.specs.TextFaults.{Gives};
ghost use Rattle.si_refusals.specs.Ending.{MayStop, ending_of};
ghost use Rattle.si_readings.specs.Readings as stage;
ghost use Rattle.si_readings.specs.Readings.{audit_readings_now, graph_readings_now};
ghost use Rattle.si_readings.specs.Readings.{mapping_readings_now, replay_readings_now};

use crate::library_format::LibraryFormat;
use si_base::fault::TextFault;
use si_base::ids::Event;
use si_cell::library::Library;
use si_cell::reader::read_library;
use si_genlib::reader::read_genlib;
use si_netlist::netlist::Netlist;
use si_netlist_reader::reader::read_netlist;
use si_refusals::refusals::Refusal;
use si_sg::read::{Sg, read_sg};
use si_system::schedule::read_schedule;
use std::alloc::Global;

/// What the texts of a mapping spell.
#[derive(Drop)]
pub struct MappingReadings {
    pub given: Sg,
    pub library: Library,
}

/// What the texts of an audit spell.
#[derive(Drop)]
pub struct AuditReadings {
    pub given: Sg,
    pub netlist: Netlist,
}

/// What the texts of a replay spell. The events are of the netlist's signals.
#[derive(Drop)]
pub struct ReplayReadings {
    pub given: Sg,
    pub netlist: Netlist,
    pub events: Vec<Event>,
}

/// The two graphs that texts give.
#[derive(Drop)]
pub struct GraphReadings {
    pub one: Sg,
    pub other: Sg,
}

/// The graph that the text gives. Each state of it is reachable, and has a name.
pub fn graph_in<'w>(alloc: Global, file: &'w str, text: &[u8]) -> Result<Sg, Refusal<'w>>
    ensures ok { IfOk result (λ g. stage.graph_in file.now text.now (Ok (sg_now g))) }
    ensures err { IfErr result (λ r. MayStop (stage.graph_in file.now text.now) (ending_of r)) }
    ensures named { IfOk result (λ g. IsNamed g.graph g.states) }
{
    match read_sg(alloc, text) {
        Ok(given) => Ok(given),
        Err(TextFault::NoMemory) => Err(Refusal::NoMemory),
        Err(TextFault::At { line, kind }) => Err(Refusal::BadText { file, line, kind }),
    }
}

/// The library that the text spells in the format, with pins of its kind.
pub fn library_in<'w>(
    alloc: Global,
    format: LibraryFormat,
    file: &'w str,
    text: &[u8],
) -> Result<Library, Refusal<'w>>
    ensures ok { IfOk result (λ l. stage.library_in format file.now text.now (Ok l)) }
    ensures err { IfErr result (λ r.
        MayStop (stage.library_in format file.now text.now) (ending_of r)) }
{
    match library_from(alloc, format, text) {
        Ok(library) => Ok(library),
        Err(TextFault::NoMemory) => Err(Refusal::NoMemory),
        Err(TextFault::At { line, kind }) => Err(Refusal::BadText { file, line, kind }),
    }
}

/// The library that the text spells in the format, or its first fault.
fn library_from(alloc: Global, format: LibraryFormat, text: &[u8]) -> Result<Library, TextFault>
    ensures { Gives (λ library. library) result (stage.fault_in format text.now)
        (stage.library_from format text.now) }
{
    match format {
        LibraryFormat::Own(pins) => {
            let library = read_library(alloc, text)?;
            Ok(library.with_pins(pins))
        }
        LibraryFormat::Genlib(pins) => {
            let library = read_genlib(alloc, text)?;
            Ok(library.with_pins(pins))
        }
    }
}

/// The netlist that the text spells.
pub fn netlist_in<'w>(alloc: Global, file: &'w str, text: &[u8]) -> Result<Netlist, Refusal<'w>>
    ensures ok { IfOk result (λ n. stage.netlist_in file.now text.now (Ok n)) }
    ensures err { IfErr result (λ r. MayStop (stage.netlist_in file.now text.now) (ending_of r)) }
{
    match read_netlist(alloc, text) {
        Ok(netlist) => Ok(netlist),
        Err(TextFault::NoMemory) => Err(Refusal::NoMemory),
        Err(TextFault::At { line, kind }) => Err(Refusal::BadText { file, line, kind }),
    }
}

/// The events that the text spells, over the signals of the netlist.
pub fn schedule_in<'w>(
    alloc: Global,
    file: &'w str,
    netlist: &Netlist,
    text: &[u8],
) -> Result<Vec<Event>, Refusal<'w>>
    ensures ok { IfOk result (λ v. stage.schedule_in file.now netlist.now text.now (Ok v.items)) }
    ensures err { IfErr result (λ r.
        MayStop (stage.schedule_in file.now netlist.now text.now) (ending_of r)) }
    ensures within { IfOk result (λ v. All (λ e. e.sig < length netlist.now.signals) v.items) }
{
    match read_schedule(alloc, text, netlist) {
        Ok(events) => Ok(events),
        Err(TextFault::NoMemory) => Err(Refusal::NoMemory),
        Err(TextFault::At { line, kind }) => Err(Refusal::BadText { file, line, kind }),
    }
}

/// The graph and the library that the texts spell, each file with its text, and the library in the
/// format.
///
/// # Errors
///
/// `BadText` with the first fault of the texts in their order. `NoMemory` only where memory runs
/// out.
pub fn mapping_readings<'w>(
    alloc: Global,
    format: LibraryFormat,
    graph_file: &'w str,
    graph: &[u8],
    library_file: &'w str,
    library: &[u8],
) -> Result<MappingReadings, Refusal<'w>>
    ensures ok { IfOk result (λ t. stage.mapping_readings format graph_file.now graph.now
        library_file.now library.now (Ok (mapping_readings_now t))) }
    ensures err { IfErr result (λ r. MayStop (stage.mapping_readings format graph_file.now graph.now
        library_file.now library.now) (ending_of r)) }
    ensures named { IfOk result (λ t. IsNamed t.given.graph t.given.states) }
{
    let given = graph_in(alloc, graph_file, graph)?;
    let library = library_in(alloc, format, library_file, library)?;
    Ok(MappingReadings { given, library })
}

/// The graph and the netlist that the texts spell, each file with its text.
///
/// # Errors
///
/// `BadText` with the first fault of the texts in their order. `NoMemory` only where memory runs
/// out.
pub fn audit_readings<'w>(
    alloc: Global,
    graph_file: &'w str,
    graph: &[u8],
    netlist_file: &'w str,
    netlist: &[u8],
) -> Result<AuditReadings, Refusal<'w>>
    ensures ok { IfOk result (λ t. stage.audit_readings graph_file.now graph.now
        netlist_file.now netlist.now (Ok (audit_readings_now t))) }
    ensures err { IfErr result (λ r. MayStop (stage.audit_readings graph_file.now graph.now
        netlist_file.now netlist.now) (ending_of r)) }
    ensures named { IfOk result (λ t. IsNamed t.given.graph t.given.states) }
{
    let given = graph_in(alloc, graph_file, graph)?;
    let netlist = netlist_in(alloc, netlist_file, netlist)?;
    Ok(AuditReadings { given, netlist })
}

/// The graph, the netlist and the events that the texts spell, each file with its text.
///
/// # Errors
///
/// `BadText` with the first fault of the texts in their order. `NoMemory` only where memory runs
/// out.
pub fn replay_readings<'w>(
    alloc: Global,
    graph_file: &'w str,
    graph: &[u8],
    netlist_file: &'w str,
    netlist: &[u8],
    schedule_file: &'w str,
    schedule: &[u8],
) -> Result<ReplayReadings, Refusal<'w>>
    ensures ok { IfOk result (λ t. stage.replay_readings graph_file.now graph.now
        netlist_file.now netlist.now schedule_file.now schedule.now (Ok (replay_readings_now t))) }
    ensures err { IfErr result (λ r. MayStop (stage.replay_readings graph_file.now graph.now
        netlist_file.now netlist.now schedule_file.now schedule.now) (ending_of r)) }
    ensures named { IfOk result (λ t. IsNamed t.given.graph t.given.states) }
    ensures within { IfOk result
        (λ t. All (λ e. e.sig < length t.netlist.signals) t.events.items) }
{
    let given = graph_in(alloc, graph_file, graph)?;
    let netlist = netlist_in(alloc, netlist_file, netlist)?;
    let events = schedule_in(alloc, schedule_file, &netlist, schedule)?;
    Ok(ReplayReadings {
        given,
        netlist,
        events,
    })
}

/// The graphs that two texts give, each file with its text.
///
/// # Errors
///
/// `BadText` with the first fault of the texts in their order. `NoMemory` only where memory runs
/// out.
pub fn graph_readings<'w>(
    alloc: Global,
    one_file: &'w str,
    one: &[u8],
    other_file: &'w str,
    other: &[u8],
) -> Result<GraphReadings, Refusal<'w>>
    ensures ok { IfOk result (λ t. stage.graph_readings one_file.now one.now
        other_file.now other.now (Ok (graph_readings_now t))) }
    ensures err { IfErr result (λ r. MayStop (stage.graph_readings one_file.now one.now
        other_file.now other.now) (ending_of r)) }
    ensures one_named { IfOk result (λ t. IsNamed t.one.graph t.one.states) }
    ensures other_named { IfOk result (λ t. IsNamed t.other.graph t.other.states) }
{
    let one = graph_in(alloc, one_file, one)?;
    let other = graph_in(alloc, other_file, other)?;
    Ok(GraphReadings { one, other })
}
