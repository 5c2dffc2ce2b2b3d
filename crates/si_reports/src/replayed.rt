//! From the texts of a graph, a netlist and a schedule to what is told of the replay.

ghost use Rattle.std.specs.Prelude.{◌≡◌, ◌<◌, ◌≤◌, All, IfOk, IfErr, length, Ok};
ghost use Rattle.si_base.specs.Limits.{max_signals};
ghost use Rattle.si_base.specs.NetlistText.{name_of};
ghost use Rattle.si_base.specs.System.{IsFor};
ghost use Rattle.si_reports.specs.Meaning as meaning;
ghost use Rattle.si_readings.specs.Checks.{IsNamed};
ghost use Rattle.si_refusals.specs.Ending.{MayStop, ending_of};
ghost use Rattle.si_reports.specs.Loops.Outcomes.{EndsDiffering, HasName, TellsEnd, TellsDifference};
ghost use Rattle.si_reports.specs.Replayed as stage;
ghost use Rattle.si_reports.specs.Replayed.{output_of, replay_text};
ghost use Rattle.si_reports.specs.Replayed.{shown_signal as signal_at_fault};

use crate::replay_kind::ReplayReport;
use si_base::ids::{Code, Event, NoMemory, Sig};
use si_base::names::Names;
use si_base::text::Text;
use si_graph::coded::Coded;
use si_graph::graph::Graph;
use si_netlist::netlist::Netlist;
use si_netlist::write::add_values_line;
use si_readings::checks::{match_lists, proper_of};
use si_readings::readings::{ReplayReadings, replay_readings};
use si_refusals::breach::name_of_signal;
use si_refusals::refusals::Refusal;
use si_sg::read::Sg;
use si_system::replay::{Outcome, replay};
use si_system::verdict::Verdict;
use si_wave::write::write_wave;
use si_words::writing::add_line;
use std::alloc::Global;

/// What is told of the schedule, over the netlist beside the graph: where it ends, or its values
/// from event to event. A refusal shows the names of the texts' files.
///
/// # Errors
///
/// `BadText` with the first fault of the texts in their order, else `Improper` with the first
/// breach, else `ListsDiffer` with the first place, else `Differs` with the first event whose
/// verdict isn't `Done`. `NoMemory` only where memory runs out.
pub fn replay_texts<'w>(
    alloc: Global,
    what: ReplayReport,
    graph_file: &'w str,
    graph: &[u8],
    netlist_file: &'w str,
    netlist: &[u8],
    schedule_file: &'w str,
    schedule: &[u8],
) -> Result<Text, Refusal<'w>>
    ensures ok { IfOk result (λ output. meaning.replay what graph_file.now graph.now
        netlist_file.now netlist.now schedule_file.now schedule.now (Ok output)) }
    ensures err { IfErr result (λ r. MayStop (meaning.replay what graph_file.now graph.now
        netlist_file.now netlist.now schedule_file.now schedule.now) (ending_of r)) }
{
    let readings = replay_readings(
        alloc,
        graph_file,
        graph,
        netlist_file,
        netlist,
        schedule_file,
        schedule,
    )?;
    let ReplayReadings {
        given,
        netlist,
        events,
    } = readings;
    let Sg { graph, states, .. } = given;
    replay_on(alloc, what, graph, &states, netlist_file, &netlist, &events)
}

/// What is told of the schedule, over the netlist beside the graph whose states have these names.
fn replay_on<'w>(
    alloc: Global,
    what: ReplayReport,
    graph: Graph,
    states: &Names,
    netlist_file: &'w str,
    netlist: &Netlist,
    events: &Vec<Event>,
) -> Result<Text, Refusal<'w>>
    requires few { length netlist.now.signals ≤ max_signals }
    requires within { All (λ e. e.sig < length netlist.now.signals) events.now.items }
    requires named { IsNamed graph states.now }
    ensures ok { IfOk result (λ output. stage.replay_on what netlist_file.now graph states.now
        netlist.now events.now.items (Ok output)) }
    ensures err { IfErr result (λ r. MayStop (stage.replay_on what netlist_file.now graph
        states.now netlist.now events.now.items) (ending_of r)) }
{
    let proper = proper_of(alloc, graph, states)?;
    let coded = proper.coded();
    match_lists(netlist_file, coded, netlist)?;
    replay_end(alloc, what, coded, netlist, events, states)
}

/// What is told of the schedule, or the first event that departs from the graph.
fn replay_end(
    alloc: Global,
    what: ReplayReport,
    graph: &Coded,
    netlist: &Netlist,
    events: &Vec<Event>,
    states: &Names,
) -> Result<Text, Refusal<'static>>
    requires fits { IsFor graph.now netlist.now }
    requires few { length netlist.now.signals ≤ max_signals }
    requires within { All (λ e. e.sig < length netlist.now.signals) events.now.items }
    requires names { length states.now ≡ graph.now.graph.states }
    ensures ok { IfOk result (λ text. stage.replay_end what graph.now.graph states.now
        netlist.now events.now.items (Ok text)) }
    ensures err { IfErr result (λ r. MayStop (stage.replay_end what graph.now.graph states.now
        netlist.now events.now.items) (ending_of r)) }
{
    // What holds of each coded graph comes with its graph.
    let _graph = graph.graph();
    match replay(graph, netlist, events) {
        Ok(outcome) => outcome_text(alloc, what, &outcome, netlist, events, states),
        Err(_) => unreachable!(),
    }
}

/// What is told of the outcome of these events, or the event that departs from the graph.
fn outcome_text(
    alloc: Global,
    what: ReplayReport,
    outcome: &Outcome,
    netlist: &Netlist,
    events: &Vec<Event>,
    states: &Names,
) -> Result<Text, Refusal<'static>>
    requires few { length netlist.now.signals ≤ max_signals }
    requires state { HasName states.now outcome.now }
    ensures ok { IfOk result
        (TellsEnd what netlist.now events.now.items states.now outcome.now) }
    ensures err { IfErr result
        (λ r. TellsDifference netlist.now.signals outcome.now (ending_of r)) }
{
    match outcome {
        Outcome::Done { values, state } => {
            let name = states.get(state.0);
            Ok(output(alloc, what, netlist, events.as_slice(), *values, name)?)
        }
        Outcome::Differs {
            step,
            event,
            verdict,
        } => Err(difference(alloc, netlist, *step, event, verdict)),
    }
}

/// The refusal of a replay that leaves the graph, loses an excitation or is blocked.
fn difference(
    alloc: Global,
    netlist: &Netlist,
    step: u64,
    event: &Event,
    verdict: &Verdict,
) -> Refusal<'static>
    ensures { EndsDiffering step (name_of netlist.now.signals
        (signal_at_fault event.now verdict.now))
        verdict.now (ending_of result) }
{
    let shown = shown_signal(event, verdict);
    match name_of_signal(alloc, netlist.signals(), shown) {
        Ok(signal) => Refusal::Differs {
            step,
            signal,
            verdict: *verdict,
        },
        Err(_) => Refusal::NoMemory,
    }
}

/// The signal whose excitation was lost, or else the event's.
fn shown_signal(event: &Event, verdict: &Verdict) -> Sig
    ensures { result ≡ signal_at_fault event.now verdict.now }
{
    match verdict {
        Verdict::Done => event.sig,
        Verdict::Blocked => event.sig,
        Verdict::Astray { sig } => *sig,
        Verdict::Lost { sig } => *sig,
    }
}

/// What is told of events that end with these values at the state of this name.
fn output(
    alloc: Global,
    what: ReplayReport,
    netlist: &Netlist,
    events: &[Event],
    values: Code,
    state: &[u8],
) -> Result<Text, NoMemory>
    requires { length netlist.now.signals ≤ max_signals }
    ensures { IfOk result
        (λ text. text ≡ output_of what netlist.now events.now values state.now) }
{
    match what {
        ReplayReport::End => end_text(alloc, events.len(), netlist, values, state),
        ReplayReport::Wave => write_wave(alloc, netlist, events),
    }
}

/// How many events there were, the values of the signals, and the state of the graph.
fn end_text(
    alloc: Global,
    events: usize,
    netlist: &Netlist,
    values: Code,
    state: &[u8],
) -> Result<Text, NoMemory>
    requires { length netlist.now.signals ≤ max_signals }
    ensures { IfOk result (λ text. text ≡ replay_text events netlist.now.signals values state.now) }
{
    let Ok(count) = events.to_string(alloc) else {
        return Err(NoMemory);
    };
    let mut text = Text::copy_of(alloc, b"")?;
    add_line(&mut text, b"done", &[count.as_bytes()])?;
    add_values_line(&mut text, b"values", netlist.signals(), values)?;
    add_line(&mut text, b"state", &[state])?;
    Ok(text)
}
