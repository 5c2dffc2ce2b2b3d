//! From the text of a graph to a report on it.

ghost use Rattle.std.specs.Prelude.{◌≡◌, ◌++◌, IfOk, IfErr, OnOk, length, Ok};
ghost use Rattle.si_base.specs.Words.{line};
ghost use Rattle.si_readings.specs.Checks.{IsNamed};
ghost use Rattle.si_refusals.specs.Ending.{MayStop, ending_of};
ghost use Rattle.si_reports.specs.Meaning as stage;
ghost use Rattle.si_reports.specs.Reports as reports;
ghost use Rattle.si_reports.specs.Reports.{count_line, summary};

use crate::fold::fold_text;
use crate::linted::{told, whole_in};
use crate::pictured::{drawn, listed};
use crate::report_kind::{ProperReport, Report};
use si_base::ids::NoMemory;
use si_base::names::Names;
use si_base::text::{Name, Text};
use si_checks::proper::Proper;
use si_explain::explain::explain;
use si_graph::coded::Coded;
use si_graph::graph::Graph;
use si_listings::conflict_listing::list_conflicts;
use si_listings::cover_listing::list_covers;
use si_listings::region_listing::list_regions;
use si_netlist::write::add_values_line;
use si_readings::checks::proper_of;
use si_refusals::refusals::Refusal;
use si_sg::read::{Sg, Whole};
use si_words::writing::add_line;
use std::alloc::Global;

/// The report on the graph that the text spells.
///
/// # Errors
///
/// `BadText` exactly where the text has a fault, with the first, else `Improper` exactly where the
/// graph isn't proper, with its first breach, and the report is on proper graphs alone. `NoMemory`
/// only where memory runs out.
pub fn report<'w>(
    alloc: Global,
    what: Report,
    file: &'w str,
    text: &[u8],
) -> Result<Text, Refusal<'w>>
    ensures ok { IfOk result (λ output. stage.report what file.now text.now (Ok output)) }
    ensures err { IfErr result
        (λ r. MayStop (stage.report what file.now text.now) (ending_of r)) }
{
    let Whole { sg, dropped } = whole_in(alloc, file, text)?;
    let Sg {
        model,
        graph,
        states,
    } = sg;
    report_on(alloc, what, graph, &model, &states, &dropped)
}

/// The report on the graph with this model and these names of its states and of those that were
/// dropped.
fn report_on(
    alloc: Global,
    what: Report,
    graph: Graph,
    model: &Name,
    states: &Names,
    dropped: &Names,
) -> Result<Text, Refusal<'static>>
    requires { IsNamed graph states.now }
    ensures ok { IfOk result
        (λ output. stage.report_on what model.now states.now dropped.now graph (Ok output)) }
    ensures err { IfErr result (λ r.
        MayStop (stage.report_on what model.now states.now dropped.now graph) (ending_of r)) }
{
    match what {
        Report::Summary => on_proper(alloc, ProperReport::Summary, graph, model, states),
        Report::Regions => on_proper(alloc, ProperReport::Regions, graph, model, states),
        Report::Conflicts => on_proper(alloc, ProperReport::Conflicts, graph, model, states),
        Report::Covers => on_proper(alloc, ProperReport::Covers, graph, model, states),
        Report::Fold => on_proper(alloc, ProperReport::Fold, graph, model, states),
        Report::States => listed(alloc, graph, states),
        Report::Explain => on_proper(alloc, ProperReport::Explain, graph, model, states),
        Report::Dot => drawn(alloc, graph, model, states),
        Report::Lint => told(alloc, graph, states, dropped),
    }
}

/// The report on the graph with this model and these names of its states, where it is proper.
fn on_proper(
    alloc: Global,
    what: ProperReport,
    graph: Graph,
    model: &Name,
    states: &Names,
) -> Result<Text, Refusal<'static>>
    requires { IsNamed graph states.now }
    ensures ok { IfOk result
        (λ output. stage.on_proper what model.now states.now graph (Ok output)) }
    ensures err { IfErr result
        (λ r. MayStop (stage.on_proper what model.now states.now graph) (ending_of r)) }
{
    let proper = proper_of(alloc, graph, states)?;
    match report_text(alloc, what, &proper, model, states) {
        Ok(text) => Ok(text),
        Err(_) => Err(Refusal::NoMemory),
    }
}

/// What is told of a proper graph with this model and these names of its states.
fn report_text(
    alloc: Global,
    what: ProperReport,
    graph: &Proper,
    model: &Name,
    states: &Names,
) -> Result<Text, NoMemory>
    requires { length states.now ≡ graph.now.graph.states }
    ensures { IfOk result (λ text. reports.report_text what model.now states.now graph.now
        (Ok text)) }
{
    match what {
        ProperReport::Summary => summary_of(alloc, graph.coded()),
        ProperReport::Regions => list_regions(alloc, graph.coded(), states),
        ProperReport::Conflicts => list_conflicts(alloc, graph.coded(), states),
        ProperReport::Covers => list_covers(alloc, graph, states),
        ProperReport::Fold => fold_text(alloc, graph, model, states),
        ProperReport::Explain => explain(alloc, graph.coded(), states),
    }
}

/// That the graph is proper, how many signals, states and arcs it has, and the values of the
/// signals at the start.
fn summary_of(alloc: Global, coded: &Coded) -> Result<Text, NoMemory>
    ensures { IfOk result (λ text. text ≡ summary coded.now) }
{
    let graph = coded.graph();
    let start = coded.code(graph.start());
    let mut text = Text::copy_of(alloc, b"proper\n")?;
    add_count(alloc, &mut text, b"signals", graph.signals().len() as u64)?;
    add_count(alloc, &mut text, b"states", u64::from(graph.states()))?;
    add_count(alloc, &mut text, b"arcs", u64::from(graph.edges()))?;
    add_values_line(&mut text, b"start", graph.signals(), start)?;
    Ok(text)
}

/// Adds a line of a word and a number.
pub fn add_count(alloc: Global, text: &mut Text, word: &[u8], count: u64) -> Result<(), NoMemory>
    ensures { OnOk result (text.new ≡ text.old ++ line (count_line word.now count)) }
{
    let Ok(count) = count.to_string(alloc) else {
        return Err(NoMemory);
    };
    add_line(text, word, &[count.as_bytes()])
}
