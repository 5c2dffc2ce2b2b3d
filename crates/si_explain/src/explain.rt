//! The text that explains the first conflicts of a graph.

ghost use Rattle.std.specs.Prelude.{◌≡◌, ◌<◌, ◌++◌, IfOk, OnOk, length};
ghost use Rattle.std.specs.Prelude.{ℕ, Contains, option_map, codes};
ghost use Rattle.std.specs.List.{list_any};
ghost use Rattle.si_base.specs.Proper.{IsConflict};
ghost use Rattle.si_base.specs.Words.{line, text_of};
ghost use Rattle.si_conflicts.specs.Conflicts.{pairs_of};
ghost use Rattle.si_explain.specs.ExplainText.{Explains, ExplainsAll, IsExplainText};
ghost use Rattle.si_explain.specs.ExplainText.{source_lines, events_line, enabled_events};
ghost use Rattle.si_explain.specs.ExplainText.{same_pair, unresolvable_lines, with_further};
ghost use Rattle.si_explain.specs.ExplainText as explained;
ghost use Rattle.si_kin.specs.Kin.{AreKinClasses};
ghost use Rattle.si_walks.specs.Joined.{IsSourceOrNone, source_of};
ghost use Rattle.si_walks.specs.Twins.{AreTwinPairsOrNone};

use crate::events::{add_events_line, add_inputs_line, enabled_events};
use si_base::ids::{NoMemory, StateId};
use si_base::names::Names;
use si_base::sets::StateSet;
use si_base::text::Text;
use si_conflicts::conflicts::{Pair, conflicts, count};
use si_graph::coded::Coded;
use si_kin::kin::{are_kin, first_kin_conflict, kin_classes};
use si_netlist::write::add_values_line;
use si_sg::write::name_at;
use si_walks::arcs::Arcs;
use si_walks::twin_pairs::{are_twins, first_twin_conflict, twin_pairs};
use si_walks::walk::shortest_walk;
use si_walks::witness::{Witness, find_witness};
use si_words::writing::add_line;
use std::alloc::Global;

/// How many conflicts are explained at most.
const MAX_EXPLAINED: u32 = 10;

/// What walks by inputs to both states of a conflict mean.
const MEANING: &[u8] =
    b"# inputs alone lead to both states, so no inserted signals tell them apart";

/// What it means that the states of a conflict are twins.
const TWIN_MEANING: &[u8] =
    b"# at states of one code the circuit does the same, so nothing tells them apart";

/// What it means that the states of a conflict are kin.
const KIN_MEANING: &[u8] =
    b"# inputs join them, some backwards, so no signals that delay no input tell them apart";

/// The states that inserted signals never tell apart.
#[derive(Drop)]
struct Indistinct {
    /// The pairs of twins, if the graph has few enough states.
    twins: Option<StateSet>,
    /// For each state the class of its kin.
    kin: Vec<StateId>,
}

/// The text of the number of conflicts of a graph with a name for each state, and of the first of
/// them: their code, what their states enable, the first walks to these from the start, and, where
/// inputs alone lead to both from some state, the first such state with the first walks, or else,
/// where they are twins, that they are (in graphs of up to 2,048 states), or else, where they are
/// kin, that they are: inputs lead from one to the other, each forwards or backwards. The first
/// conflict of twins (of these graphs) and the first of kin are there too. It fails only where
/// memory runs out.
pub fn explain(alloc: Global, graph: &Coded, states: &Names) -> Result<Text, NoMemory>
    requires { length states.now ≡ graph.now.graph.states }
    ensures { IfOk result (IsExplainText graph.now states.now) }
{
    let count = count(alloc, graph)?;
    let mut pairs = conflicts(alloc, graph, MAX_EXPLAINED)?;
    let twins = twin_pairs(alloc, graph)?;
    let kin = kin_classes(alloc, graph)?;
    let first_twin = first_twin_conflict(graph, &twins);
    let first_kin = first_kin_conflict(alloc, graph, kin.as_slice())?;
    add_if_new(&mut pairs, first_twin)?;
    add_if_new(&mut pairs, first_kin)?;
    let Ok(number) = count.to_string(alloc) else {
        return Err(NoMemory);
    };
    let mut text = Text::copy_of(alloc, b"")?;
    add_line(&mut text, b"conflicts", &[number.as_bytes()])?;
    let known = Indistinct { twins, kin };
    add_conflicts(alloc, &mut text, graph, states, pairs.as_slice(), &known)?;
    Ok(text)
}

/// Puts a conflict last, if there is one that isn't among the pairs.
fn add_if_new(pairs: &mut Vec<Pair>, conflict: Option<(StateId, StateId)>) -> Result<(), NoMemory>
    ensures { OnOk result
        (pairs_of pairs.new.items ≡ with_further (pairs_of pairs.old.items) conflict) }
{
    let Some(found) = conflict else {
        return Ok(());
    };
    let (p, q) = found;
    if is_among(pairs, p, q) {
        return Ok(());
    }
    pairs.push(Pair { p, q })?;
    Ok(())
}

/// Whether two states are one of the pairs.
fn is_among(pairs: &Vec<Pair>, p: StateId, q: StateId) -> bool
    ensures { result ≡ list_any (λ x. same_pair (p, q) (x.p, x.q)) pairs.now.items }
{
    for pair in pairs {
        if pair.p == p && pair.q == q {
            return true;
        }
    }
    false
}

/// Adds the lines of the pairs, one after another.
fn add_conflicts(
    alloc: Global,
    text: &mut Text,
    graph: &Coded,
    states: &Names,
    pairs: &[Pair],
    known: &Indistinct,
) -> Result<(), NoMemory>
    requires states { length states.now ≡ graph.now.graph.states }
    requires pairs { (pair : ℕ × ℕ) → Contains (pairs_of pairs.now) pair
        → IsConflict graph.now pair }
    requires twins { AreTwinPairsOrNone graph.now known.now.twins }
    requires kin { AreKinClasses graph.now known.now.kin.items }
    ensures { OnOk result
        (ExplainsAll graph.now states.now (pairs_of pairs.now) text.old text.new) }
{
    for pair in pairs {
        add_conflict(alloc, text, graph, states, pair.p, pair.q, known)?;
    }
    Ok(())
}

/// Adds the lines of two states of one code.
fn add_conflict(
    alloc: Global,
    text: &mut Text,
    coded: &Coded,
    states: &Names,
    p: StateId,
    q: StateId,
    known: &Indistinct,
) -> Result<(), NoMemory>
    requires states { length states.now ≡ coded.now.graph.states }
    requires p { p < coded.now.graph.states }
    requires q { q < coded.now.graph.states }
    requires twins { AreTwinPairsOrNone coded.now known.now.twins }
    requires kin { AreKinClasses coded.now known.now.kin.items }
    ensures { OnOk result (Explains coded.now states.now (p, q) text.old text.new) }
{
    let graph = coded.graph();
    let signals = graph.signals();
    let to_p = shortest_walk(alloc, coded, &Arcs::All, graph.start(), p)?;
    let to_q = shortest_walk(alloc, coded, &Arcs::All, graph.start(), q)?;
    let source = find_witness(alloc, coded, p, q)?;
    let twins = are_twins(&known.twins, coded, p, q);
    let kin = are_kin(known.kin.as_slice(), p, q);
    add_line(text, b"conflict", &[name_at(states, p), name_at(states, q)])?;
    add_values_line(text, b"code", signals, coded.code(p))?;
    add_enabled(alloc, text, coded, states, p)?;
    add_enabled(alloc, text, coded, states, q)?;
    add_events_line(text, b"walk", signals, states, p, to_p.as_slice())?;
    add_events_line(text, b"walk", signals, states, q, to_q.as_slice())?;
    add_source(text, coded, states, p, q, &source)?;
    let told_twins = tells_twins(&source, twins);
    let told_kin = tells_kin(&source, twins, kin);
    add_unresolvable(text, states, p, q, TWIN_MEANING, told_twins)?;
    add_unresolvable(text, states, p, q, KIN_MEANING, told_kin)?;
    Ok(())
}

/// Whether twins are told: where no source is.
fn tells_twins(source: &Option<Witness>, twins: bool) -> bool
    ensures { result ≡ explained.tells_twins (option_map source_of source.now) twins }
{
    match source {
        None => twins,
        Some(_) => false,
    }
}

/// Whether kin are told: where neither a source is nor twins are.
fn tells_kin(source: &Option<Witness>, twins: bool, kin: bool) -> bool
    ensures { result ≡ explained.tells_kin (option_map source_of source.now) twins kin }
{
    match source {
        None => kin && !twins,
        Some(_) => false,
    }
}

/// Adds the line of a conflict that no insertions resolve, with the reason, where that is told.
fn add_unresolvable(
    text: &mut Text,
    states: &Names,
    p: StateId,
    q: StateId,
    why: &[u8],
    told: bool,
) -> Result<(), NoMemory>
    requires p { p < length states.now }
    requires q { q < length states.now }
    ensures { OnOk result
        (text.new ≡ text.old ++ text_of (unresolvable_lines states.now (p, q) why.now told)) }
{
    if !told {
        return Ok(());
    }
    add_line(
        text,
        b"unresolvable",
        &[name_at(states, p), name_at(states, q), why],
    )?;
    Ok(())
}

/// Adds the line of the events that a state enables.
fn add_enabled(
    alloc: Global,
    text: &mut Text,
    coded: &Coded,
    states: &Names,
    s: StateId,
) -> Result<(), NoMemory>
    requires states { length states.now ≡ coded.now.graph.states }
    requires state { s < coded.now.graph.states }
    ensures { let g = coded.now.graph in OnOk result (text.new ≡ text.old
        ++ line (events_line (codes "enables") g.signals states.now s (enabled_events g s))) }
{
    let graph = coded.graph();
    let events = enabled_events(alloc, graph, s)?;
    add_events_line(
        text,
        b"enables",
        graph.signals(),
        states,
        s,
        events.as_slice(),
    )?;
    Ok(())
}

/// Adds the lines of a state from which inputs alone lead to both states of the pair, if there is
/// one.
fn add_source(
    text: &mut Text,
    coded: &Coded,
    states: &Names,
    p: StateId,
    q: StateId,
    source: &Option<Witness>,
) -> Result<(), NoMemory>
    requires states { length states.now ≡ coded.now.graph.states }
    requires p { p < coded.now.graph.states }
    requires q { q < coded.now.graph.states }
    requires source { IsSourceOrNone coded.now (p, q) (option_map source_of source.now) }
    ensures { OnOk result (text.new ≡ text.old ++ text_of (source_lines coded.now.graph.signals
        states.now (p, q) (option_map source_of source.now))) }
{
    let signals = coded.graph().signals();
    let Some(found) = source else {
        return Ok(());
    };
    let s = found.source;
    add_inputs_line(text, signals, states, s, p, found.first.as_slice())?;
    add_inputs_line(text, signals, states, s, q, found.second.as_slice())?;
    add_line(
        text,
        b"unresolvable",
        &[name_at(states, p), name_at(states, q), MEANING],
    )?;
    Ok(())
}
