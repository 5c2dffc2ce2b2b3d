//! From the text of a graph to the text of the graph after insertions.

ghost use Rattle.std.specs.Prelude.{◌≡◌, ℕ, List, IfOk, IfErr, Ok, length};
ghost use Rattle.si_base.specs.System.{IsFor};
ghost use Rattle.si_circuit.specs.Circuits.{AreStateNames};
ghost use Rattle.si_insert.specs.Lineage.{AllGiven};
ghost use Rattle.si_readings.specs.Checks.{IsNamed};
ghost use Rattle.si_refusals.specs.Ending.{MayStop, ending_of};
ghost use Rattle.si_sg.specs.GivenGraph.{IsGivenBy, sg_now};
ghost use Rattle.si_stages.specs.Inserted as stage;

use crate::audited::rejection;
use crate::resolving::resolution;
use si_audit::walk::lineage_of;
use si_base::names::Names;
use si_base::text::{Name, Text};
use si_checks::proper::Proper;
use si_graph::graph::Graph;
use si_insert::lineage::Lineage;
use si_inserted::text::current_text;
use si_netlist::netlist::Netlist;
use si_readings::checks::{match_lists, proper_of};
use si_readings::readings::{AuditReadings, audit_readings, graph_in};
use si_refusals::refusals::Refusal;
use si_sg::read::Sg;
use std::alloc::Global;

/// The text of the graph that the text spells, after the insertions that resolve its conflicts: its
/// inserted signals are internal ones.
///
/// # Errors
///
/// Those of `synth`: `BadText` exactly where the text has a fault, with the first, else `Improper`
/// exactly where the graph isn't proper, with its first breach, else `Unresolved` exactly where
/// resolving leaves a conflict, with the first that is left and the insertions. `NoMemory` only
/// where memory runs out.
pub fn resolve<'w>(alloc: Global, file: &'w str, text: &[u8]) -> Result<Text, Refusal<'w>>
    ensures ok { IfOk result (λ output. stage.resolve file.now text.now (Ok output)) }
    ensures err { IfErr result (λ r. MayStop (stage.resolve file.now text.now) (ending_of r)) }
{
    let Sg {
        model,
        graph,
        states,
    } = graph_in(alloc, file, text)?;
    resolved_text(alloc, graph, &model, &states)
}

/// The text of the graph, whose states have these names, after the insertions that resolve its
/// conflicts.
fn resolved_text(
    alloc: Global,
    graph: Graph,
    model: &Name,
    states: &Names,
) -> Result<Text, Refusal<'static>>
    requires given { AllGiven graph.signals }
    requires named { IsNamed graph states.now }
    requires states { AreStateNames graph states.now }
    ensures ok { IfOk result (λ output.
        stage.resolved_text model.now states.now graph (Ok output)) }
    ensures err { IfErr result (λ r.
        MayStop (stage.resolved_text model.now states.now graph) (ending_of r)) }
{
    let resolved = resolution(alloc, graph, states)?;
    let output = current_text(alloc, resolved.lineage(), model, states)?;
    Ok(output)
}

/// The text of the graph that the one text spells, after the insertions of the netlist that the
/// other spells, one after another. The gates of the netlist aren't looked at, and conflicts may be
/// left. A refusal shows the names of the texts' files.
///
/// # Errors
///
/// `BadText` with the first fault of the texts in their order, else `Improper` with the first
/// breach, else `ListsDiffer` with the first place, else `Rejected` exactly where an insertion
/// isn't taken, with the first, and the first reason against it. `NoMemory` only where memory runs
/// out.
pub fn insert<'w>(
    alloc: Global,
    graph_file: &'w str,
    graph: &[u8],
    netlist_file: &'w str,
    netlist: &[u8],
) -> Result<Text, Refusal<'w>>
    ensures ok { IfOk result (λ output. stage.insert graph_file.now graph.now
        netlist_file.now netlist.now (Ok output)) }
    ensures err { IfErr result (λ r. MayStop (stage.insert graph_file.now graph.now
        netlist_file.now netlist.now) (ending_of r)) }
{
    let readings = audit_readings(alloc, graph_file, graph, netlist_file, netlist)?;
    let AuditReadings { given, netlist } = readings;
    inserted_text(alloc, given, netlist_file, &netlist)
}

/// The text of a graph that was read, after the insertions of the netlist.
fn inserted_text<'w>(
    alloc: Global,
    given: Sg,
    netlist_file: &'w str,
    netlist: &Netlist,
) -> Result<Text, Refusal<'w>>
    requires given { (text : List ℕ) × IsGivenBy text (sg_now given) }
    requires named { IsNamed given.graph given.states }
    ensures ok { IfOk result (λ output. stage.inserted_text netlist_file.now (sg_now given)
        netlist.now (Ok output)) }
    ensures err { IfErr result (λ r. MayStop (stage.inserted_text netlist_file.now (sg_now given)
        netlist.now) (ending_of r)) }
{
    let Sg {
        model,
        graph,
        states,
    } = given;
    let proper = proper_of(alloc, graph, &states)?;
    match_lists(netlist_file, proper.coded(), netlist)?;
    text_with_insertions(alloc, proper, &model, &states, netlist)
}

/// The text of the graph, whose states have these names, after the insertions of the netlist.
fn text_with_insertions(
    alloc: Global,
    graph: Proper,
    model: &Name,
    states: &Names,
    netlist: &Netlist,
) -> Result<Text, Refusal<'static>>
    requires names { AreStateNames graph.graph states.now }
    requires fits { IsFor graph netlist.now }
    ensures ok { IfOk result (λ output.
        stage.text_with_insertions model.now states.now graph netlist.now (Ok output)) }
    ensures err { IfErr result (λ r.
        MayStop (stage.text_with_insertions model.now states.now graph netlist.now)
        (ending_of r)) }
{
    let lineage = lineage_with_insertions(alloc, graph, states, netlist)?;
    let output = current_text(alloc, &lineage, model, states)?;
    Ok(output)
}

/// The lineage of the graph with the insertions of the netlist, or the first reason against one.
fn lineage_with_insertions(
    alloc: Global,
    graph: Proper,
    states: &Names,
    netlist: &Netlist,
) -> Result<Lineage, Refusal<'static>>
    requires names { length states.now ≡ graph.graph.states }
    requires fits { IsFor graph netlist.now }
    ensures ok { IfOk result (λ l. stage.lineage_with_insertions states.now graph netlist.now
        (Ok l)) }
    ensures err { IfErr result (λ r.
        MayStop (stage.lineage_with_insertions states.now graph netlist.now) (ending_of r)) }
{
    match lineage_of(alloc, graph, states, netlist) {
        Ok(lineage) => Ok(lineage),
        Err(fault) => Err(rejection(alloc, netlist.signals(), fault)),
    }
}
