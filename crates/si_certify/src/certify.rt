//! From the texts of a graph and a netlist to the netlist with the lines of its insertions.

ghost use Rattle.std.specs.Prelude.{IfErr, IfOk, Ok};
ghost use Rattle.si_base.specs.System.{IsFor};
ghost use Rattle.si_certify.specs.Certify as spec;
ghost use Rattle.si_certify.specs.Certify.{IsSpelled};
ghost use Rattle.si_circuit.specs.Circuits.{AreStateNames};
ghost use Rattle.si_readings.specs.Checks.{IsNamed};
ghost use Rattle.si_refusals.specs.Ending.{MayStop, ending_of};

use crate::hidden::{hiding, with_lines};
use crate::reasons::reason_of;
use si_base::ids::NoMemory;
use si_base::names::Names;
use si_base::text::Text;
use si_base::text_key::TextKey;
use si_checks::proper::Proper;
use si_circuit::spelling::insertions;
use si_finder::finder::find;
use si_graph::graph::Graph;
use si_netlist::netlist::Netlist;
use si_netlist::write::write_netlist;
use si_readings::checks::{match_lists, proper_of};
use si_readings::readings::{AuditReadings, audit_readings};
use si_refusals::refusals::Refusal;
use si_sg::read::Sg;
use std::alloc::Global;

/// The text of the netlist that the one text spells, with the lines of the insertions that its
/// gates tell for the graph of the other. Signals that the graph doesn't have are hidden ones, and
/// lines of insertions in the text aren't looked at. A refusal shows the names of the texts' files.
///
/// # Errors
///
/// `BadText` with the first fault of the texts in their order, else `Improper` with the first
/// breach, else `ListsDiffer` with the first place, else `Rejected` exactly where the gates tell no
/// insertions that certify the netlist, with the first reason. `NoMemory` only where memory runs
/// out.
pub fn certify_texts<'w>(
    alloc: Global,
    graph_file: &'w str,
    graph: &[u8],
    netlist_file: &'w str,
    netlist: &[u8],
) -> Result<Text, Refusal<'w>>
    ensures ok { IfOk result (λ output. spec.certify graph_file.now graph.now
        netlist_file.now netlist.now (Ok output)) }
    ensures err { IfErr result (λ r. MayStop (spec.certify graph_file.now graph.now
        netlist_file.now netlist.now) (ending_of r)) }
{
    let key = key_of(alloc, graph, netlist)?;
    let readings = audit_readings(alloc, graph_file, graph, netlist_file, netlist)?;
    let AuditReadings { given, netlist } = readings;
    let Sg { graph, states, .. } = given;
    spelled_on(alloc, key, graph, &states, netlist_file, netlist)
}

/// The key of both texts.
fn key_of(alloc: Global, graph: &[u8], netlist: &[u8]) -> Result<TextKey, NoMemory> {
    let mut all = Text::copy_of(alloc, graph)?;
    all.add(netlist)?;
    Ok(TextKey::of(all.bytes()))
}

/// The text of the netlist with its lines, for a graph whose states have these names.
fn spelled_on<'w>(
    alloc: Global,
    key: TextKey,
    graph: Graph,
    states: &Names,
    netlist_file: &'w str,
    netlist: Netlist,
) -> Result<Text, Refusal<'w>>
    requires named { IsNamed graph states.now }
    requires states { AreStateNames graph states.now }
    ensures ok { IfOk result (λ output.
        spec.spelled_on netlist_file.now graph states.now netlist (Ok output)) }
    ensures err { IfErr result (λ r.
        MayStop (spec.spelled_on netlist_file.now graph states.now netlist) (ending_of r)) }
{
    let proper = proper_of(alloc, graph, states)?;
    spelled_beside(alloc, key, proper, states, netlist_file, netlist)
}

/// The text of the netlist with its lines, where the signals that the graph doesn't have are
/// hidden.
fn spelled_beside<'w>(
    alloc: Global,
    key: TextKey,
    graph: Proper,
    states: &Names,
    netlist_file: &'w str,
    netlist: Netlist,
) -> Result<Text, Refusal<'w>>
    requires names { AreStateNames graph.graph states.now }
    ensures ok { IfOk result (λ output.
        spec.spelled_beside netlist_file.now states.now graph netlist (Ok output)) }
    ensures err { IfErr result (λ r.
        MayStop (spec.spelled_beside netlist_file.now states.now graph netlist) (ending_of r)) }
{
    let given = graph.coded().graph().signals().len();
    let netlist = hiding(alloc, given, netlist)?;
    match_lists(netlist_file, graph.coded(), &netlist)?;
    spelled(alloc, key, graph, states, netlist)
}

/// The text of the netlist with the lines of the lineage that fits it.
///
/// # Errors
///
/// `Rejected` exactly where no lineage fits, with the first reason. `NoMemory` only where memory
/// runs out.
pub fn spelled(
    alloc: Global,
    key: TextKey,
    graph: Proper,
    states: &Names,
    netlist: Netlist,
) -> Result<Text, Refusal<'static>>
    requires names { AreStateNames graph.graph states.now }
    requires fits { IsFor graph netlist }
    ensures ok { IfOk result (IsSpelled states.now graph netlist) }
    ensures err { IfErr result (λ r.
        MayStop (spec.spelling states.now graph netlist) (ending_of r)) }
{
    let given = graph.coded().graph().signals().len();
    match find(alloc, key, graph, &netlist) {
        Ok(lineage) => {
            let inserts = insertions(alloc, &lineage, states)?;
            let spelled = with_lines(netlist, inserts);
            Ok(write_netlist(alloc, &spelled)?)
        }
        Err(why) => match reason_of(alloc, states, given, netlist.signals(), &why) {
            Ok(reason) => Err(Refusal::Rejected { reason }),
            Err(NoMemory) => Err(Refusal::NoMemory),
        },
    }
}
