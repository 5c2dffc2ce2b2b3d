//! The picture of a graph, for Graphviz.

ghost use Rattle.std.specs.Prelude.{◌≡◌, ◌<◌, ◌++◌, ◌∷◌, [], IfOk, OnOk, false, flat_map, length};
ghost use Rattle.std.specs.Prelude.{map, slice_index_or, if◌then◌else◌};
ghost use Rattle.si_base.specs.Bytes.{line_feed, space};
ghost use Rattle.si_conflicts.specs.Conflicts.{pairs_of};
ghost use Rattle.si_pictures.specs.CodeWord.{code_word, first};
ghost use Rattle.si_pictures.specs.Grammar.{Setting};
ghost use Rattle.si_pictures.specs.Picture as picture;
ghost use Rattle.si_pictures.specs.Picture.{IsDotText, arc_link, code_line, conflict_line};
ghost use Rattle.si_pictures.specs.Picture.{label_attribute, names_where, state_label, state_node};
ghost use Rattle.si_pictures.specs.Seen.{graph_of, is_red_arc};
ghost use Rattle.si_pictures.specs.Writing.{attribute_text, statement_text};
ghost use Rattle.si_sg.specs.CanonicalText.{event_word};
ghost use Rattle.si_words.specs.Loops.Writing.{spaced};

use crate::code_word::add_code;
use crate::dot_writing::{add_attribute, add_attribute_if, add_number};
use crate::red::{lines, red_states};
use crate::seen::Seen;
use si_base::graph::{Edge, Signal, signal_name};
use si_base::ids::{Event, NoMemory, Sig, StateId};
use si_base::names::Names;
use si_base::text::Text;
use si_conflicts::conflicts::Pair;
use si_graph::coded::Coded;
use si_sg::write::{name_at, sign};
use si_words::writing::add_word;
use std::alloc::Global;

/// The text of the picture of what was read, with this model and a name for each state.
///
/// The title has the names of the signals. Each state is a node with its name and its code, and the
/// start has two borders; each arc is an edge with its event, dashed where that is of an input. Of
/// a proper graph the states of conflicts are red, and a red line joins the two of each of the
/// first conflicts; of another graph the state and the arcs of the first breach are red. It fails
/// only where memory runs out.
pub fn draw(alloc: Global, seen: &Seen, model: &[u8], states: &Names) -> Result<Text, NoMemory>
    requires { length states.now ≡ (graph_of seen.now).states }
    ensures { IfOk result (IsDotText model.now states.now seen.now) }
{
    let marks = red_states(alloc, seen)?;
    let pairs = lines(alloc, seen)?;
    let mut text = Text::copy_of(alloc, b"digraph {\n")?;
    add_title(alloc, &mut text, model, seen.graph().signals())?;
    add_states(alloc, &mut text, seen, states, marks.as_slice())?;
    add_arcs(alloc, &mut text, seen)?;
    add_lines(alloc, &mut text, pairs.as_slice())?;
    text.add(b"}\n")?;
    Ok(text)
}

/// Adds the title as the label of the graph.
fn add_title(
    alloc: Global,
    text: &mut Text,
    model: &[u8],
    signals: &[Signal],
) -> Result<(), NoMemory>
    ensures { OnOk result (text.new ≡ text.old
        ++ statement_text (Setting (label_attribute (picture.title model.now signals.now)))) }
{
    let label = title_of(alloc, model, signals)?;
    text.add(b"  ")?;
    add_attribute(text, b"label", label.bytes())?;
    text.add(b";\n")
}

/// The name of the model, and on the next line the names of the signals, with `/` before those that
/// the circuit drives.
fn title_of(alloc: Global, model: &[u8], signals: &[Signal]) -> Result<Text, NoMemory>
    ensures { IfOk result (λ label. label ≡ picture.title model.now signals.now) }
{
    let mut label = Text::copy_of(alloc, model)?;
    label.add(b"\nsignals")?;
    add_names(&mut label, signals, false)?;
    label.add(b" /")?;
    add_names(&mut label, signals, true)?;
    Ok(label)
}

/// Adds the names of the inputs, or of the signals that the circuit drives, each with a blank
/// before it.
fn add_names(text: &mut Text, signals: &[Signal], driven: bool) -> Result<(), NoMemory>
    ensures { OnOk result (text.new ≡ text.old ++ spaced (names_where driven signals.now)) }
{
    for signal in signals {
        add_word_if(text, signal.kind.is_driven() == driven, signal.name.bytes())?;
    }
    Ok(())
}

/// Adds a word with a blank before it, where `on` is true.
fn add_word_if(text: &mut Text, on: bool, word: &[u8]) -> Result<(), NoMemory>
    ensures { OnOk result (text.new ≡ text.old ++ (if on then space ∷ word.now else [])) }
{
    if !on {
        return Ok(());
    }
    add_word(text, word)
}

/// Adds a node for each state, in red where it is marked.
fn add_states(
    alloc: Global,
    text: &mut Text,
    seen: &Seen,
    states: &Names,
    marks: &[bool],
) -> Result<(), NoMemory>
    requires names { length states.now ≡ (graph_of seen.now).states }
    requires marks { length marks.now ≡ (graph_of seen.now).states }
    ensures { OnOk result (text.new ≡ text.old ++ flat_map statement_text
        (map (λ s. state_node seen.now states.now s (slice_index_or marks.now s false))
        (first (graph_of seen.now).states))) }
{
    for k in 0..seen.graph().states() {
        add_state(alloc, text, seen, states, StateId(k), marks[k as usize])?;
    }
    Ok(())
}

/// Adds the node of a state, in red where it is marked.
fn add_state(
    alloc: Global,
    text: &mut Text,
    seen: &Seen,
    states: &Names,
    s: StateId,
    marked: bool,
) -> Result<(), NoMemory>
    requires state { s < (graph_of seen.now).states }
    requires names { length states.now ≡ (graph_of seen.now).states }
    ensures { OnOk result
        (text.new ≡ text.old ++ statement_text (state_node seen.now states.now s marked)) }
{
    text.add(b"  ")?;
    add_number(alloc, text, s)?;
    text.add(b" [")?;
    add_state_label(alloc, text, seen, states, s)?;
    add_attribute_if(text, s == seen.graph().start(), b"peripheries", b"2")?;
    add_attribute_if(text, marked, b"color", b"red")?;
    text.add(b"];\n")
}

/// Adds the label of a state: its name, and on the next line its code.
fn add_state_label(
    alloc: Global,
    text: &mut Text,
    seen: &Seen,
    states: &Names,
    s: StateId,
) -> Result<(), NoMemory>
    requires state { s < (graph_of seen.now).states }
    requires names { length states.now ≡ (graph_of seen.now).states }
    ensures { OnOk result (text.new ≡ text.old
        ++ attribute_text (label_attribute (state_label seen.now states.now s))) }
{
    let mut label = Text::copy_of(alloc, name_at(states, s))?;
    add_code_line(&mut label, seen, s)?;
    add_attribute(text, b"label", label.bytes())
}

/// Adds the line of the code of a state, where the graph has codes.
fn add_code_line(label: &mut Text, seen: &Seen, s: StateId) -> Result<(), NoMemory>
    requires { s < (graph_of seen.now).states }
    ensures { OnOk result (label.new ≡ label.old ++ code_line seen.now s) }
{
    match seen {
        Seen::Proper(proper) => add_line_of_code(label, proper.coded(), s),
        Seen::Coded(coded, _) => add_line_of_code(label, coded, s),
        Seen::Uncoded(..) => Ok(()),
    }
}

/// Adds a line feed, and the code of a state.
fn add_line_of_code(label: &mut Text, graph: &Coded, s: StateId) -> Result<(), NoMemory>
    requires { s < graph.now.graph.states }
    ensures { OnOk result (label.new ≡ label.old ++ line_feed ∷ code_word graph.now s) }
{
    label.add(b"\n")?;
    add_code(label, graph, s)
}

/// Adds an edge for each arc, in red where it shows the first breach.
fn add_arcs(alloc: Global, text: &mut Text, seen: &Seen) -> Result<(), NoMemory>
    ensures { let g = graph_of seen.now in OnOk result (text.new ≡ text.old
        ++ flat_map statement_text
        (map (λ a. arc_link g.signals a (is_red_arc seen.now a)) g.edges)) }
{
    let graph = seen.graph();
    for arc in graph.arcs() {
        add_arc(alloc, text, graph.signals(), *arc, seen.is_red_arc(arc))?;
    }
    Ok(())
}

/// Adds the edge of an arc, dashed where its event is of an input, and in red where it is marked.
fn add_arc(
    alloc: Global,
    text: &mut Text,
    signals: &[Signal],
    arc: Edge,
    marked: bool,
) -> Result<(), NoMemory>
    requires { arc.event.sig < length signals.now }
    ensures { OnOk result
        (text.new ≡ text.old ++ statement_text (arc_link signals.now arc marked)) }
{
    text.add(b"  ")?;
    add_number(alloc, text, arc.from)?;
    text.add(b" -> ")?;
    add_number(alloc, text, arc.to)?;
    text.add(b" [")?;
    add_event_label(alloc, text, signals, arc.event)?;
    let driven = drives(signals, arc.event.sig);
    add_attribute_if(text, !driven, b"style", b"dashed")?;
    add_attribute_if(text, marked, b"color", b"red")?;
    text.add(b"];\n")
}

/// Whether the circuit drives the signal, that is, whether it is no input.
fn drives(signals: &[Signal], z: Sig) -> bool
    ensures { result ≡ picture.drives signals.now z }
{
    match signals.get(z.0 as usize) {
        Some(signal) => signal.kind.is_driven(),
        None => true,
    }
}

/// Adds the label of an event.
fn add_event_label(
    alloc: Global,
    text: &mut Text,
    signals: &[Signal],
    event: Event,
) -> Result<(), NoMemory>
    requires { event.sig < length signals.now }
    ensures { OnOk result
        (text.new ≡ text.old ++ attribute_text (label_attribute (event_word signals.now event))) }
{
    let mut label = Text::copy_of(alloc, signal_name(signals, event.sig))?;
    label.add(sign(event.up))?;
    add_attribute(text, b"label", label.bytes())
}

/// Adds a red line between the two states of each pair.
fn add_lines(alloc: Global, text: &mut Text, pairs: &[Pair]) -> Result<(), NoMemory>
    ensures { OnOk result (text.new ≡ text.old
        ++ flat_map statement_text (map conflict_line (pairs_of pairs.now))) }
{
    for pair in pairs {
        add_conflict_line(alloc, text, *pair)?;
    }
    Ok(())
}

/// Adds a red line between the two states.
fn add_conflict_line(alloc: Global, text: &mut Text, pair: Pair) -> Result<(), NoMemory>
    ensures { OnOk result
        (text.new ≡ text.old ++ statement_text (conflict_line (pair.p, pair.q))) }
{
    text.add(b"  ")?;
    add_number(alloc, text, pair.p)?;
    text.add(b" -> ")?;
    add_number(alloc, text, pair.q)?;
    text.add(b" [dir=\"none\", color=\"red\", constraint=\"false\"];\n")
}
