//! The text of the states of a graph.

ghost use Rattle.std.specs.Prelude.{◌≡◌, ◌<◌, ◌++◌, IfOk, OnOk, codes, ◌∷◌, [], length, map};
ghost use Rattle.std.specs.Prelude.{if◌then◌else◌};
ghost use Rattle.si_base.specs.declared.ids.Event.{Event};
ghost use Rattle.si_base.specs.Graph.{enables};
ghost use Rattle.si_base.specs.NetlistText.{word_if_any};
ghost use Rattle.si_base.specs.Words.{line};
ghost use Rattle.si_pictures.specs.CodeWord.{code_word, enabled_events, enabled_of};
ghost use Rattle.si_pictures.specs.Seen.{graph_of};
ghost use Rattle.si_pictures.specs.StatesText as states_text;
ghost use Rattle.si_pictures.specs.StatesText.{code_words, state_line};
ghost use Rattle.si_sg.specs.CanonicalText.{event_word};
ghost use Rattle.si_words.specs.Loops.Writing.{spaced};

use crate::code_word::add_code;
use crate::seen::Seen;
use si_base::graph::{Signal, signal_name};
use si_base::ids::{Event, NoMemory, Sig, StateId};
use si_base::names::Names;
use si_base::text::Text;
use si_graph::coded::Coded;
use si_graph::graph::Graph;
use si_sg::write::{name_at, sign};
use si_words::writing::add_word;
use std::alloc::Global;

/// The text of the states of what was read, with a name for each state: the names of the signals,
/// then for each state, in state order, its name, its code with `*` behind each excited signal, or
/// `-` where the graph has no codes, and the events that it enables. It fails only where memory
/// runs out.
pub fn list_states(alloc: Global, seen: &Seen, states: &Names) -> Result<Text, NoMemory>
    requires { length states.now ≡ (graph_of seen.now).states }
    ensures { IfOk result (λ text. text ≡ states_text.states_text seen.now states.now) }
{
    let mut text = Text::copy_of(alloc, b"")?;
    add_signals(&mut text, seen.graph().signals())?;
    for k in 0..seen.graph().states() {
        add_state(&mut text, seen, states, StateId(k))?;
    }
    Ok(text)
}

/// Adds the line of the names of the signals.
fn add_signals(text: &mut Text, signals: &[Signal]) -> Result<(), NoMemory>
    ensures { OnOk result
        (text.new ≡ text.old ++ line (codes "signals" ∷ map (λ x. x.name) signals.now)) }
{
    text.add(b"signals")?;
    add_signal_names(text, signals)?;
    text.add(b"\n")
}

/// Adds the names of the signals, each with a blank before it.
fn add_signal_names(text: &mut Text, signals: &[Signal]) -> Result<(), NoMemory>
    ensures { OnOk result (text.new ≡ text.old ++ spaced (map (λ x. x.name) signals.now)) }
{
    for signal in signals {
        add_word(text, signal.name.bytes())?;
    }
    Ok(())
}

/// Adds the line of a state.
fn add_state(text: &mut Text, seen: &Seen, states: &Names, s: StateId) -> Result<(), NoMemory>
    requires state { s < (graph_of seen.now).states }
    requires names { length states.now ≡ (graph_of seen.now).states }
    ensures { OnOk result (text.new ≡ text.old ++ line (state_line seen.now states.now s)) }
{
    text.add(name_at(states, s))?;
    add_code_words(text, seen, s)?;
    add_events(text, seen.graph(), s)?;
    text.add(b"\n")
}

/// Adds the code of a state, or `-` where the graph has no codes, with a blank before it.
fn add_code_words(text: &mut Text, seen: &Seen, s: StateId) -> Result<(), NoMemory>
    requires { s < (graph_of seen.now).states }
    ensures { OnOk result (text.new ≡ text.old ++ spaced (code_words seen.now s)) }
{
    match seen {
        Seen::Proper(proper) => add_code_word(text, proper.coded(), s),
        Seen::Coded(coded, _) => add_code_word(text, coded, s),
        Seen::Uncoded(..) => text.add(b" -"),
    }
}

/// Adds the code of a state with a blank before it, where there is a signal.
fn add_code_word(text: &mut Text, graph: &Coded, s: StateId) -> Result<(), NoMemory>
    requires { s < graph.now.graph.states }
    ensures { OnOk result (text.new ≡ text.old ++ spaced (word_if_any (code_word graph.now s))) }
{
    if graph.graph().signals().is_empty() {
        return Ok(());
    }
    text.add(b" ")?;
    add_code(text, graph, s)
}

/// Adds the events that the state enables, each with a blank before it.
fn add_events(text: &mut Text, graph: &Graph, s: StateId) -> Result<(), NoMemory>
    ensures { let g = graph.now in OnOk result
        (text.new ≡ text.old ++ spaced (map (event_word g.signals) (enabled_events g s))) }
{
    let _arcs = graph.arcs();
    for i in 0..graph.signals().len() {
        add_events_of(text, graph, s, Sig(i as u8))?;
    }
    Ok(())
}

/// Adds the events of the signal that the state enables, each with a blank before it.
fn add_events_of(text: &mut Text, graph: &Graph, s: StateId, z: Sig) -> Result<(), NoMemory>
    requires { z < length graph.now.signals }
    ensures { let g = graph.now in OnOk result
        (text.new ≡ text.old ++ spaced (map (event_word g.signals) (enabled_of g s z))) }
{
    add_event_if(text, graph, s, z, true)?;
    add_event_if(text, graph, s, z, false)
}

/// Adds the event of the signal with a blank before it, where the state enables it.
fn add_event_if(
    text: &mut Text,
    graph: &Graph,
    s: StateId,
    z: Sig,
    up: bool,
) -> Result<(), NoMemory>
    requires { z < length graph.now.signals }
    ensures { let g = graph.now in let e : Event = record { sig = z; up = up } in
        OnOk result (text.new ≡ text.old
        ++ spaced (map (event_word g.signals) (if enables g s e then e ∷ [] else []))) }
{
    if !graph.enabled(s, Event { sig: z, up }) {
        return Ok(());
    }
    add_word(text, signal_name(graph.signals(), z))?;
    text.add(sign(up))
}
