//! From the texts of two graphs to whether they behave alike.

ghost use Rattle.std.specs.Prelude.{◌≡◌, ℕ, ◌<◌, ◌++◌, All, IfOk, IfErr, List, Ok, OnOk, length};
ghost use Rattle.std.specs.Prelude.{map};
ghost use Rattle.si_base.specs.Words.{line};
ghost use Rattle.si_readings.specs.Checks.{IsNamed};
ghost use Rattle.si_refusals.specs.Ending.{Answered, MayStop, ending_of};
ghost use Rattle.si_refusals.specs.Refusal.{TextRefused};
ghost use Rattle.si_same.specs.Laws.{AreAlikeFromStart};
ghost use Rattle.si_same.specs.Same.{difference_of};
ghost use Rattle.si_sg.specs.CanonicalText.{event_word as word_of_event};
ghost use Rattle.si_likeness.specs.Same as meaning;
ghost use Rattle.si_likeness.specs.Same.{HasFolded, ServesBoth, TellsSame, sizes_line};
ghost use Rattle.si_likeness.specs.Same.{unlike_by};
ghost use Rattle.si_system.specs.Lists.{StartAlike};

use si_base::graph::Signal;
use si_base::ids::{Event, NoMemory};
use si_base::names::Names;
use si_base::text::Text;
use si_checks::proper::Proper;
use si_fold::fold::fold;
use si_graph::graph::Graph;
use si_netlist::name_list::NameList;
use si_readings::checks::{match_graphs, proper_of};
use si_readings::readings::{GraphReadings, graph_readings};
use si_refusals::breach::{event_word, state_name};
use si_refusals::refusals::Refusal;
use si_same::search::{FirstDifference, first_difference};
use si_sg::read::Sg;
use si_words::writing::add_line;
use std::alloc::Global;

/// What is told of the graphs that two texts give, where they behave alike: how many states each
/// has, and folded has. A refusal shows the names of the texts' files.
///
/// # Errors
///
/// `BadText` with the first fault of the texts in their order, else `Improper` with the first
/// breach of the one graph, or else of the other, else `ListsDiffer` with the first place, else
/// `Unlike` exactly where they don't behave alike, with their first difference. `NoMemory` only
/// where memory runs out.
pub fn same<'w>(
    alloc: Global,
    one_file: &'w str,
    one: &[u8],
    other_file: &'w str,
    other: &[u8],
) -> Result<Text, Refusal<'w>>
    ensures ok { IfOk result (λ output. meaning.same one_file.now one.now
        other_file.now other.now (Ok output)) }
    ensures err { IfErr result (λ r. MayStop (meaning.same one_file.now one.now
        other_file.now other.now) (ending_of r)) }
{
    let readings = graph_readings(alloc, one_file, one, other_file, other)?;
    let GraphReadings { one: f, other: g } = readings;
    let Sg {
        graph: f_graph,
        states: f_states,
        ..
    } = f;
    let Sg {
        graph: g_graph,
        states: g_states,
        ..
    } = g;
    likeness_of(
        alloc, one_file, f_graph, &f_states, other_file, g_graph, &g_states,
    )
}

/// What is told of two graphs, whose states have these names, or the refusal that is due.
fn likeness_of<'w>(
    alloc: Global,
    one_file: &'w str,
    one: Graph,
    one_states: &Names,
    other_file: &'w str,
    other: Graph,
    other_states: &Names,
) -> Result<Text, Refusal<'w>>
    requires one { IsNamed one one_states.now }
    requires other { IsNamed other other_states.now }
    ensures ok { IfOk result (λ output. meaning.likeness_of one_file.now one one_states.now
        other_file.now other other_states.now (Ok output)) }
    ensures err { IfErr result (λ r. MayStop (meaning.likeness_of one_file.now one one_states.now
        other_file.now other other_states.now) (ending_of r)) }
{
    let f = proper_of(alloc, one, one_states)?;
    let g = proper_of(alloc, other, other_states)?;
    match_graphs(other_file, f.coded(), g.coded())?;
    likeness(
        alloc,
        one_file,
        &f,
        one_states,
        other_file,
        &g,
        other_states,
    )
}

/// The sizes of two graphs, where they behave alike, or their first difference.
fn likeness<'w>(
    alloc: Global,
    one_file: &'w str,
    one: &Proper,
    one_states: &Names,
    other_file: &'w str,
    other: &Proper,
    other_states: &Names,
) -> Result<Text, Refusal<'w>>
    requires one_named { length one_states.now ≡ one.now.graph.states }
    requires other_named { length other_states.now ≡ other.now.graph.states }
    requires lists { StartAlike one.now other.now }
    ensures ok { IfOk result (λ output. meaning.likeness one_file.now other_file.now
        one_states.now other_states.now one.now other.now (Ok output)) }
    ensures err { IfErr result (λ r. MayStop (meaning.likeness one_file.now other_file.now
        one_states.now other_states.now one.now other.now) (ending_of r)) }
{
    let graph = one.coded().graph();
    let _other = other.coded().graph();
    match first_difference(alloc, one.coded(), other.coded())? {
        None => Ok(sizes_of(alloc, one, other)?),
        Some(found) => Err(unlike(
            alloc,
            one_file,
            other_file,
            graph,
            one_states,
            other_states,
            &found,
        )?),
    }
}

/// The refusal that shows a difference of two graphs by the names of their states.
fn unlike<'w>(
    alloc: Global,
    one_file: &'w str,
    other_file: &'w str,
    one: &Graph,
    one_states: &Names,
    other_states: &Names,
    found: &FirstDifference,
) -> Result<Refusal<'w>, NoMemory>
    requires one { found.now.one < length one_states.now }
    requires other { found.now.other < length other_states.now }
    requires event { found.now.event.sig < length one.now.signals }
    requires walk { All (λ e. e.sig < length one.now.signals) found.now.walk.items }
    ensures { IfOk result (λ r. ending_of r ≡ Answered (TextRefused
        (unlike_by one_file.now other_file.now one_states.now other_states.now one.now
        (difference_of found.now)))) }
{
    let signals = one.signals();
    let file = if one.enabled(found.one, found.event) {
        one_file
    } else {
        other_file
    };
    Ok(Refusal::Unlike {
        file,
        event: event_word(alloc, signals, found.event)?,
        one: state_name(alloc, one_states, found.one)?,
        other: state_name(alloc, other_states, found.other)?,
        walk: event_words(alloc, signals, &found.walk)?,
    })
}

/// The words of events.
fn event_words(alloc: Global, signals: &[Signal], events: &[Event]) -> Result<NameList, NoMemory>
    requires { All (λ e. e.sig < length signals.now) events.now }
    ensures { IfOk result (λ words. words ≡ map (word_of_event signals.now) events.now) }
{
    let mut words = NameList::new(alloc);
    for event in events {
        let word = event_word(alloc, signals, *event)?;
        words.push(word.bytes())?;
    }
    Ok(words)
}

/// That two graphs behave alike, with their sizes. Only the one is folded, since the other has as
/// many states when it is folded.
fn sizes_of(alloc: Global, one: &Proper, other: &Proper) -> Result<Text, NoMemory>
    requires { AreAlikeFromStart one.now other.now }
    ensures { IfOk result (TellsSame one.now other.now) }
{
    let folded = folded_states(alloc, one)?;
    let one_states = one.coded().graph().states();
    let other_states = other.coded().graph().states();
    same_text(alloc, one_states, folded, other_states, folded)
}

/// The lines of the sizes of two graphs that behave alike.
fn same_text(
    alloc: Global,
    one: u32,
    one_folded: u32,
    other: u32,
    other_folded: u32,
) -> Result<Text, NoMemory>
    ensures { IfOk result (λ text. text ≡ meaning.same_text one one_folded other other_folded) }
{
    let mut text = Text::copy_of(alloc, b"")?;
    add_line(&mut text, b"same", &[])?;
    add_sizes(alloc, &mut text, one, one_folded)?;
    add_sizes(alloc, &mut text, other, other_folded)?;
    Ok(text)
}

/// How many states the folded graph has.
fn folded_states(alloc: Global, graph: &Proper) -> Result<u32, NoMemory>
    ensures { IfOk result (HasFolded graph.now) }
{
    let folded = fold(alloc, graph)?;
    Ok(folded.graph.coded().graph().states())
}

/// Adds the line of how many states a graph has, and its folded graph has.
fn add_sizes(alloc: Global, text: &mut Text, states: u32, folded: u32) -> Result<(), NoMemory>
    ensures { OnOk result (text.new ≡ text.old ++ line (sizes_line states folded)) }
{
    let Ok(states) = states.to_string(alloc) else {
        return Err(NoMemory);
    };
    let Ok(folded) = folded.to_string(alloc) else {
        return Err(NoMemory);
    };
    add_line(
        text,
        b"states",
        &[states.as_bytes(), b"folded", folded.as_bytes()],
    )
}

/// A law, whose function does nothing: where the texts of two graphs come to an output, a netlist
/// implements the one graph exactly where it implements the other.
pub fn same_graphs_share_netlists()
    ensures { (one one_text other other_text output : List ℕ)
        → meaning.same one one_text other other_text (Ok output) → ServesBoth one_text other_text }
{}
