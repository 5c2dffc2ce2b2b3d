//! The lines of each kind.

ghost use Rattle.std.specs.Prelude.{◌≡◌, ◌<◌, ◌++◌, OnOk, All, length, take};
ghost use Rattle.si_base.specs.Words.{line, text_of};
ghost use Rattle.si_conflicts.specs.Conflicts.{pairs_of};
ghost use Rattle.si_told.specs.ToldLines.{max_told, kind_lines, dropped_line};
ghost use Rattle.si_lint.specs.LintText.{unused_line};
ghost use Rattle.si_lint.specs.LintText.{dead_line, one_way_line, loss_line, pair_line};
ghost use Rattle.si_told.specs.ToldLines.{told_line};
ghost use Rattle.si_told.specs.Loops.Lines.{AddsLines, ArcIsWithin, LossIsWithin};
ghost use Rattle.si_lint.specs.Loops.Lines.{PairIsWithin};
ghost use Rattle.si_walks.specs.Tree.{IsTree};

use crate::withdrawals::Withdrawal;
use si_base::graph::{Edge, Signal, signal_name};
use si_base::ids::{Event, NoMemory, Sig, StateId};
use si_base::names::Names;
use si_base::text::Text;
use si_conflicts::conflicts::Pair;
use si_explain::events::{add_events, add_events_line};
use si_graph::coded::Coded;
use si_graph::graph::Graph;
use si_sg::write::name_at;
use si_told::lines::printed;
use si_walks::tree::way_to;
use si_words::writing::{add_line, add_word};
use std::alloc::Global;

/// Adds the lines of signals that never switch.
pub(crate) fn add_unused(text: &mut Text, signals: &[Signal], found: &[Sig]) -> Result<(), NoMemory>
    ensures { OnOk result (text.new ≡ text.old
        ++ text_of (kind_lines (unused_line signals.now) found.now)) }
{
    let first = printed(found);
    for a in first {
        add_line(text, b"unused", &[signal_name(signals, *a)])?;
    }
    Ok(())
}

/// Adds the lines of states without arcs.
pub(crate) fn add_dead(
    alloc: Global,
    text: &mut Text,
    graph: &Graph,
    last: &[Option<Edge>],
    states: &Names,
    found: &[StateId],
) -> Result<(), NoMemory>
    requires states { length states.now ≡ graph.now.states }
    requires tree { IsTree graph.now last.now }
    requires within { All (λ s. s < graph.now.states) found.now }
    ensures { let g = graph.now in OnOk result (AddsLines g
        (λ walk. kind_lines (dead_line g.signals states.now walk) found.now) text.old text.new) }
{
    let _arcs = graph.arcs();
    let signals = graph.signals();
    let first = printed(found);
    for s in first {
        let walk = way_to(alloc, graph, last, *s)?;
        add_events_line(text, b"dead", signals, states, *s, walk.as_slice())?;
    }
    Ok(())
}

/// Adds the lines of arcs after which the start can't be reached any more.
pub(crate) fn add_one_ways(
    alloc: Global,
    text: &mut Text,
    graph: &Graph,
    last: &[Option<Edge>],
    states: &Names,
    found: &[Edge],
) -> Result<(), NoMemory>
    requires states { length states.now ≡ graph.now.states }
    requires tree { IsTree graph.now last.now }
    requires within { All (ArcIsWithin graph.now) found.now }
    ensures { let g = graph.now in OnOk result (AddsLines g
        (λ walk. kind_lines (one_way_line g.signals states.now walk) found.now)
        text.old text.new) }
{
    let _arcs = graph.arcs();
    let signals = graph.signals();
    let first = printed(found);
    for arc in first {
        let walk = way_to(alloc, graph, last, arc.from)?;
        add_one_way(text, signals, states, arc, walk.as_slice())?;
    }
    Ok(())
}

/// Adds the line of an arc and of a walk to its source.
fn add_one_way(
    text: &mut Text,
    signals: &[Signal],
    states: &Names,
    arc: &Edge,
    walk: &[Event],
) -> Result<(), NoMemory>
    requires from { arc.now.from < length states.now }
    requires sig { arc.now.event.sig < length signals.now }
    requires to { arc.now.to < length states.now }
    requires walk { All (λ e. e.sig < length signals.now) walk.now }
    ensures { OnOk result (text.new ≡ text.old
        ++ line (one_way_line signals.now states.now (λ s. walk.now) arc.now)) }
{
    text.add(b"oneway")?;
    add_word(text, name_at(states, arc.from))?;
    add_events(text, signals, &[arc.event])?;
    add_word(text, name_at(states, arc.to))?;
    add_events(text, signals, walk)?;
    text.add(b"\n")
}

/// Adds the lines of input events that another event disables.
pub(crate) fn add_withdrawals(
    text: &mut Text,
    word: &[u8],
    coded: &Coded,
    states: &Names,
    found: &[Withdrawal],
) -> Result<(), NoMemory>
    requires states { length states.now ≡ coded.now.graph.states }
    requires within { All (LossIsWithin coded.now.graph) found.now }
    ensures { OnOk result (text.new ≡ text.old ++ text_of (kind_lines
        (loss_line word.now coded.now.graph.signals states.now) found.now)) }
{
    let signals = coded.graph().signals();
    let first = printed(found);
    for b in first {
        add_events_line(text, word, signals, states, b.s, &[b.lost, b.by])?;
    }
    Ok(())
}

/// Adds the lines of pairs of states.
pub(crate) fn add_pairs(
    text: &mut Text,
    word: &[u8],
    states: &Names,
    found: &[Pair],
) -> Result<(), NoMemory>
    requires { All (PairIsWithin (length states.now)) (pairs_of found.now) }
    ensures { OnOk result (text.new ≡ text.old
        ++ text_of (kind_lines (pair_line word.now states.now) (pairs_of found.now))) }
{
    let first = printed(found);
    for pair in first {
        let p = name_at(states, pair.p);
        let q = name_at(states, pair.q);
        add_line(text, word, &[p, q])?;
    }
    Ok(())
}
