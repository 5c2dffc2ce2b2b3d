//! Lines of events.

ghost use Rattle.std.specs.Prelude.{◌≡◌, ◌<◌, ◌++◌, IfOk, OnOk, All, length};
ghost use Rattle.si_base.specs.Words.{line};
ghost use Rattle.si_words.specs.Loops.Writing.{spaced};
ghost use Rattle.si_explain.specs.ExplainText.{enabled_events, events_words, events_line};
ghost use Rattle.si_explain.specs.ExplainText.{inputs_line};

use si_base::graph::{Signal, signal_name};
use si_base::ids::{Event, NoMemory, StateId};
use si_base::names::Names;
use si_base::text::Text;
use si_graph::graph::Graph;
use si_sg::write::{name_at, sign};
use si_words::writing::add_word;
use std::alloc::Global;

/// The events that a state enables, in event order. It fails only where memory runs out.
pub(crate) fn enabled_events(
    alloc: Global,
    graph: &Graph,
    s: StateId,
) -> Result<Vec<Event>, NoMemory>
    ensures { IfOk result (λ events. events.items ≡ enabled_events graph.now s) }
{
    let mut events = Vec::new(alloc);
    let _arcs = graph.arcs();
    let out = graph.arcs_out(s);
    for arc in out {
        events.push(arc.event)?;
    }
    Ok(events)
}

/// Adds a line of a word, the name of a state, and events.
pub fn add_events_line(
    text: &mut Text,
    word: &[u8],
    signals: &[Signal],
    states: &Names,
    s: StateId,
    events: &[Event],
) -> Result<(), NoMemory>
    requires state { s < length states.now }
    requires events { All (λ e. e.sig < length signals.now) events.now }
    ensures { OnOk result (text.new ≡ text.old
        ++ line (events_line word.now signals.now states.now s events.now)) }
{
    text.add(word)?;
    add_word(text, name_at(states, s))?;
    add_events(text, signals, events)?;
    text.add(b"\n")
}

/// Adds a line of a walk by inputs alone from one state to another.
pub(crate) fn add_inputs_line(
    text: &mut Text,
    signals: &[Signal],
    states: &Names,
    s: StateId,
    t: StateId,
    events: &[Event],
) -> Result<(), NoMemory>
    requires s { s < length states.now }
    requires t { t < length states.now }
    requires events { All (λ e. e.sig < length signals.now) events.now }
    ensures { OnOk result (text.new ≡ text.old
        ++ line (inputs_line signals.now states.now s t events.now)) }
{
    text.add(b"inputs")?;
    add_word(text, name_at(states, s))?;
    add_word(text, name_at(states, t))?;
    add_events(text, signals, events)?;
    text.add(b"\n")
}

/// Adds the events, each with a blank before it.
pub fn add_events(text: &mut Text, signals: &[Signal], events: &[Event]) -> Result<(), NoMemory>
    requires { All (λ e. e.sig < length signals.now) events.now }
    ensures { OnOk result
        (text.new ≡ text.old ++ spaced (events_words signals.now events.now)) }
{
    for e in events {
        add_word(text, signal_name(signals, e.sig))?;
        text.add(sign(e.up))?;
    }
    Ok(())
}
