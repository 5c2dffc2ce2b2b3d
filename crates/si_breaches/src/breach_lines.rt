//! The lines of each kind of breach.

ghost use Rattle.std.specs.Prelude.{◌≡◌, ◌<◌, ◌++◌, [], ◌∷◌, OnOk, All, length, map};
ghost use Rattle.si_base.specs.Words.{line, text_of};
ghost use Rattle.si_breaches.specs.BreachText.{breach_line, value_line, split_line, fork_line};
ghost use Rattle.si_breaches.specs.BreachText.{lost_line, all_clash_lines, clash_lines};
ghost use Rattle.si_breaches.specs.Breaches.{by_arc};
ghost use Rattle.si_told.specs.ToldLines.{kind_lines};
ghost use Rattle.si_told.specs.Loops.Lines.{AddsLines};
ghost use Rattle.si_breaches.specs.Loops.Lines.{ClashIsWithin, ForkIsWithin};
ghost use Rattle.si_told.specs.Loops.Lines.{ArcIsWithin, LossIsWithin};
ghost use Rattle.si_breaches.specs.Loops.Lines.{SplitIsWithin};
ghost use Rattle.si_sg.specs.CanonicalText.{state_at};
ghost use Rattle.si_walks.specs.Tree.{IsTree};
ghost use Rattle.si_words.specs.Loops.Writing.{spaced};

use crate::clashes::{Clash, Clashing};
use crate::forks::Fork;
use crate::losses::Loss;
use crate::splits::Split;
use si_base::graph::{Edge, Signal, signal_name};
use si_base::ids::{Event, NoMemory, Sig, StateId};
use si_base::names::Names;
use si_base::text::Text;
use si_explain::events::add_events;
use si_graph::graph::Graph;
use si_sg::write::name_at;
use si_told::lines::printed;
use si_walks::tree::way_to;
use si_words::writing::add_word;
use std::alloc::Global;

/// Adds the lines of events that lead from a state to several.
pub(crate) fn add_splits(
    alloc: Global,
    text: &mut Text,
    graph: &Graph,
    last: &[Option<Edge>],
    states: &Names,
    found: &[Split],
) -> Result<(), NoMemory>
    requires states { length states.now ≡ graph.now.states }
    requires tree { IsTree graph.now last.now }
    requires within { All (SplitIsWithin graph.now) found.now }
    ensures { let g = graph.now in OnOk result (AddsLines g
        (λ walk. kind_lines (split_line g.signals states.now walk) found.now) text.old text.new) }
{
    let _arcs = graph.arcs();
    let signals = graph.signals();
    let first = printed(found);
    for b in first {
        let walk = way_to(alloc, graph, last, b.s)?;
        add_breach(
            text,
            b"nondeterministic",
            signals,
            states,
            b.s,
            &[b.e],
            &[b.t, b.u],
            walk.as_slice(),
        )?;
    }
    Ok(())
}

/// Adds the lines of events whose two orders end apart.
pub(crate) fn add_forks(
    alloc: Global,
    text: &mut Text,
    graph: &Graph,
    last: &[Option<Edge>],
    states: &Names,
    found: &[Fork],
) -> Result<(), NoMemory>
    requires states { length states.now ≡ graph.now.states }
    requires tree { IsTree graph.now last.now }
    requires within { All (ForkIsWithin graph.now) found.now }
    ensures { let g = graph.now in OnOk result (AddsLines g
        (λ walk. kind_lines (fork_line g.signals states.now walk) found.now) text.old text.new) }
{
    let _arcs = graph.arcs();
    let signals = graph.signals();
    let first = printed(found);
    for b in first {
        let walk = way_to(alloc, graph, last, b.s)?;
        add_breach(
            text,
            b"noncommutative",
            signals,
            states,
            b.s,
            &[b.a, b.c],
            &[b.w, b.w2],
            walk.as_slice(),
        )?;
    }
    Ok(())
}

/// Adds the lines of events of signals that the circuit drives that another event disables.
pub(crate) fn add_losses(
    alloc: Global,
    text: &mut Text,
    graph: &Graph,
    last: &[Option<Edge>],
    states: &Names,
    found: &[Loss],
) -> Result<(), NoMemory>
    requires states { length states.now ≡ graph.now.states }
    requires tree { IsTree graph.now last.now }
    requires within { All (LossIsWithin graph.now) found.now }
    ensures { let g = graph.now in OnOk result (AddsLines g
        (λ walk. kind_lines (lost_line g.signals states.now walk) found.now) text.old text.new) }
{
    let _arcs = graph.arcs();
    let signals = graph.signals();
    let first = printed(found);
    for b in first {
        let walk = way_to(alloc, graph, last, b.s)?;
        add_breach(
            text,
            b"nonpersistent",
            signals,
            states,
            b.s,
            &[b.lost, b.by],
            &[],
            walk.as_slice(),
        )?;
    }
    Ok(())
}

/// Adds a line of a word, a state, events, states, and the events of a walk.
fn add_breach(
    text: &mut Text,
    word: &[u8],
    signals: &[Signal],
    states: &Names,
    s: StateId,
    events: &[Event],
    ends: &[StateId],
    walk: &[Event],
) -> Result<(), NoMemory>
    requires state { s < length states.now }
    requires events { All (λ e. e.sig < length signals.now) events.now }
    requires ends { All (λ t. t < length states.now) ends.now }
    requires walk { All (λ e. e.sig < length signals.now) walk.now }
    ensures { OnOk result (text.new ≡ text.old
        ++ line (breach_line word.now signals.now states.now s events.now ends.now walk.now)) }
{
    text.add(word)?;
    add_word(text, name_at(states, s))?;
    add_events(text, signals, events)?;
    add_states(text, states, ends)?;
    add_events(text, signals, walk)?;
    text.add(b"\n")
}

/// Adds the names of states, each with a blank before it.
fn add_states(text: &mut Text, states: &Names, ends: &[StateId]) -> Result<(), NoMemory>
    requires { All (λ t. t < length states.now) ends.now }
    ensures { OnOk result
        (text.new ≡ text.old ++ spaced (map (state_at states.now) ends.now)) }
{
    for t in ends {
        add_word(text, name_at(states, *t))?;
    }
    Ok(())
}

/// Adds the lines of signals without values.
pub(crate) fn add_clashes(
    alloc: Global,
    text: &mut Text,
    graph: &Graph,
    last: &[Option<Edge>],
    states: &Names,
    found: &[Clashing],
) -> Result<(), NoMemory>
    requires states { length states.now ≡ graph.now.states }
    requires tree { IsTree graph.now last.now }
    requires within { All (λ c. ClashIsWithin graph.now c.clash) found.now }
    ensures { let g = graph.now in OnOk result (AddsLines g
        (λ walk. all_clash_lines g.signals states.now walk found.now) text.old text.new) }
{
    let _arcs = graph.arcs();
    for clashing in found {
        add_clash(
            alloc,
            text,
            graph,
            last,
            states,
            clashing.sig,
            &clashing.clash,
        )?;
    }
    Ok(())
}

/// Adds the two lines of a clash.
fn add_clash(
    alloc: Global,
    text: &mut Text,
    graph: &Graph,
    last: &[Option<Edge>],
    states: &Names,
    a: Sig,
    clash: &Clash,
) -> Result<(), NoMemory>
    requires states { length states.now ≡ graph.now.states }
    requires tree { IsTree graph.now last.now }
    requires within { ClashIsWithin graph.now clash.now }
    ensures { let g = graph.now in OnOk result (AddsLines g
        (λ walk. clash_lines g.signals states.now walk a clash.now) text.old text.new) }
{
    match clash {
        Clash::Torn(x) => {
            add_by_arc(alloc, text, graph, last, states, a, x)?;
            add_to(alloc, text, graph, last, states, a, x.to)?;
            Ok(())
        }
        Clash::Apart(x, y) => {
            add_by_arc(alloc, text, graph, last, states, a, x)?;
            add_by_arc(alloc, text, graph, last, states, a, y)?;
            Ok(())
        }
    }
}

/// Adds the line of a walk by an arc.
fn add_by_arc(
    alloc: Global,
    text: &mut Text,
    graph: &Graph,
    last: &[Option<Edge>],
    states: &Names,
    a: Sig,
    x: &Edge,
) -> Result<(), NoMemory>
    requires states { length states.now ≡ graph.now.states }
    requires tree { IsTree graph.now last.now }
    requires arc { ArcIsWithin graph.now x.now }
    ensures { let g = graph.now in OnOk result (AddsLines g (λ walk.
        value_line g.signals states.now a x.now.to (by_arc walk x.now) ∷ []) text.old text.new) }
{
    let _arcs = graph.arcs();
    let mut walk = way_to(alloc, graph, last, x.from)?;
    walk.push(x.event)?;
    add_value(text, graph.signals(), states, a, x.to, walk.as_slice())?;
    Ok(())
}

/// Adds the line of the first walk to a state.
fn add_to(
    alloc: Global,
    text: &mut Text,
    graph: &Graph,
    last: &[Option<Edge>],
    states: &Names,
    a: Sig,
    s: StateId,
) -> Result<(), NoMemory>
    requires states { length states.now ≡ graph.now.states }
    requires tree { IsTree graph.now last.now }
    requires state { s < graph.now.states }
    ensures { let g = graph.now in OnOk result (AddsLines g (λ walk.
        value_line g.signals states.now a s (walk s) ∷ []) text.old text.new) }
{
    let _arcs = graph.arcs();
    let walk = way_to(alloc, graph, last, s)?;
    add_value(text, graph.signals(), states, a, s, walk.as_slice())?;
    Ok(())
}

/// Adds a line of a signal without values, a state and the events of a walk to it.
fn add_value(
    text: &mut Text,
    signals: &[Signal],
    states: &Names,
    a: Sig,
    s: StateId,
    walk: &[Event],
) -> Result<(), NoMemory>
    requires state { s < length states.now }
    requires walk { All (λ e. e.sig < length signals.now) walk.now }
    ensures { OnOk result (text.new ≡ text.old
        ++ line (value_line signals.now states.now a s walk.now)) }
{
    text.add(b"inconsistent")?;
    add_word(text, signal_name(signals, a))?;
    add_word(text, name_at(states, s))?;
    add_events(text, signals, walk)?;
    text.add(b"\n")
}
