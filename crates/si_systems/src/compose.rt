//! From the texts of graphs to the text of the graph of all of them side by side.

ghost use Rattle.std.specs.Prelude.{◌≡◌, ◌≢◌, ◌≤◌, [], flat_map, map, AllPairs, IfOk, IfErr, Ok};
ghost use Rattle.std.specs.Prelude.{length, vec_items};
ghost use Rattle.si_composing.specs.Causes.{ShowsUncomposed, StatesFit};
ghost use Rattle.si_composing.specs.JoinedSignals.{joined_signals, max_parts};
ghost use Rattle.si_composing.specs.Tuples.{IsReached};
ghost use Rattle.si_composing.specs.declared.compose.Uncomposed.TheVariants.{Signal};
ghost use Rattle.si_refusals.specs.Ending.{MayStop, ending_of};
ghost use Rattle.si_systems.specs.Compose as stage;
ghost use Rattle.si_systems.specs.Compose.{AreWalkWords, IsNamed};
ghost use Rattle.si_systems.specs.Laws.{AreSound};
ghost use Rattle.si_systems.specs.Loops.Composed.{composed_now};
ghost use Rattle.si_systems.specs.Loops.Parts.{AreGiven, AreTuplesOf, ShowsTupleOf, sgs_now};
ghost use Rattle.si_systems.specs.Names.{composed_sg};
ghost use Rattle.si_words.specs.Loops.Reads.{words_now};

use crate::halts::{add_dead_line, dead_count};
use crate::names::{event_words, joined_model, names_at, tuple_names};
use si_base::ids::NoMemory;
use si_base::text::{Name, Text};
use si_base::text_key::TextKey;
use si_composing::clash::Clash;
use si_composing::compose::{Composed, Uncomposed, compose};
use si_composing::system::System;
use si_composing::tuples::Tuple;
use si_graph::coded::Coded;
use si_netlist::name_list::NameList;
use si_readings::checks::proper_of;
use si_readings::readings::graph_in;
use si_refusals::refusals::Refusal;
use si_refusals::uncomposed::NamedCause;
use si_sg::read::Sg;
use si_sg::write::{sign, write_sg};
use si_trails::signals::signals_beside;
use si_trails::walk::walk_to;
use std::alloc::Global;

/// The text of the graph of all the graphs that texts give, side by side, and behind its end how
/// many of its states enable nothing. A refusal shows the names of the texts' files.
///
/// # Errors
///
/// `BadText` with the first fault of the texts in their order, else `Improper` with the first
/// breach of the first graph that isn't proper, else `Uncomposed` with the first cause against
/// composing. `NoMemory` only where memory runs out.
pub fn compose_texts<'w>(
    alloc: Global,
    files: &[&'w str],
    texts: &[Vec<u8>],
) -> Result<Text, Refusal<'w>>
    requires few { length files.now ≤ max_parts }
    requires texts { length texts.now ≡ length files.now }
    ensures ok { IfOk result (λ output.
        stage.compose (words_now files.now) (map vec_items texts.now) (Ok output)) }
    ensures err { IfErr result (λ r. MayStop
        (stage.compose (words_now files.now) (map vec_items texts.now)) (ending_of r)) }
{
    let all = joined_texts(alloc, texts)?;
    let key = TextKey::of(all.bytes());
    let given = graphs_in(alloc, files, texts)?;
    let parts = parts_of(alloc, &given)?;
    composition(alloc, key, &given, &parts)
}

/// All texts in one.
pub(crate) fn joined_texts(alloc: Global, texts: &[Vec<u8>]) -> Result<Text, NoMemory>
    ensures { IfOk result (λ text. text ≡ flat_map vec_items texts.now) }
{
    let mut all = Text::copy_of(alloc, b"")?;
    for text in texts {
        all.add(text)?;
    }
    Ok(all)
}

/// The graphs that texts give, each of its file.
pub(crate) fn graphs_in<'w>(
    alloc: Global,
    files: &[&'w str],
    texts: &[Vec<u8>],
) -> Result<Vec<Sg>, Refusal<'w>>
    requires { length texts.now ≡ length files.now }
    ensures ok { IfOk result (λ given. stage.graphs_in (words_now files.now)
        (map vec_items texts.now) (Ok (sgs_now given.items))) }
    ensures err { IfErr result (λ r. MayStop
        (stage.graphs_in (words_now files.now) (map vec_items texts.now)) (ending_of r)) }
{
    let mut given = Vec::new(alloc);
    for k in 0..files.len() {
        let file = files[k];
        let sg = graph_in(alloc, file, &texts[k])?;
        let Ok(()) = given.push(sg) else {
            return Err(Refusal::NoMemory);
        };
    }
    Ok(given)
}

/// The graphs with their codes, where each is proper.
fn parts_of(alloc: Global, given: &[Sg]) -> Result<Vec<Coded>, Refusal<'static>>
    requires { AreGiven (sgs_now given.now) }
    ensures ok { IfOk result (λ parts. stage.parts_of (sgs_now given.now) (Ok parts.items)) }
    ensures err { IfErr result
        (λ r. MayStop (stage.parts_of (sgs_now given.now)) (ending_of r)) }
{
    let mut parts = Vec::new(alloc);
    for sg in given {
        let graph = sg.graph.copy(alloc)?;
        let part = proper_of(alloc, graph, &sg.states)?;
        let Ok(()) = parts.push(part.into_coded()) else {
            return Err(Refusal::NoMemory);
        };
    }
    Ok(parts)
}

/// The text of the graph of all the graphs side by side, of which these are the parts with their
/// codes, or the refusal that is due.
fn composition(
    alloc: Global,
    key: TextKey,
    given: &[Sg],
    parts: &[Coded],
) -> Result<Text, Refusal<'static>>
    requires few { length parts.now ≤ max_parts }
    requires given { AreGiven (sgs_now given.now) }
    requires sound { AreSound (sgs_now given.now) parts.now }
    ensures ok { IfOk result
        (λ output. stage.composition (sgs_now given.now) parts.now (Ok output)) }
    ensures err { IfErr result
        (λ r. MayStop (stage.composition (sgs_now given.now) parts.now) (ending_of r)) }
{
    let composed = composed(alloc, key, given, parts)?;
    let mut text = write_sg(alloc, &composed.sg)?;
    add_dead_line(alloc, &mut text, dead_count(&composed.sg.graph))?;
    Ok(text)
}

/// The graph of graphs side by side, and the tuples that are its states, in order.
#[derive(Drop)]
pub struct ComposedSg {
    pub sg: Sg,
    pub tuples: Vec<Tuple>,
}

/// The graph of all the graphs side by side, of which these are the parts with their codes.
///
/// The key hinders that texts are written whose names fill one place of a table; it changes no
/// answer.
///
/// # Errors
///
/// `Uncomposed` with the first cause against composing. `NoMemory` only where memory runs out.
pub fn composed(
    alloc: Global,
    key: TextKey,
    given: &[Sg],
    parts: &[Coded],
) -> Result<ComposedSg, Refusal<'static>>
    requires few { length parts.now ≤ max_parts }
    requires given { AreGiven (sgs_now given.now) }
    requires sound { AreSound (sgs_now given.now) parts.now }
    ensures ok { IfOk result
        (λ c. stage.composed (sgs_now given.now) parts.now (Ok (composed_now c))) }
    ensures err { IfErr result
        (λ r. MayStop (stage.composed (sgs_now given.now) parts.now) (ending_of r)) }
{
    match compose(alloc, key, parts) {
        Ok(composed) => Ok(with_names(alloc, key, given, composed)?),
        Err(cause) => {
            let cause = named(alloc, key, given, parts, cause)?;
            Err(Refusal::Uncomposed { cause })
        }
    }
}

/// The composed graph with its model and the names of its states.
pub(crate) fn with_names(
    alloc: Global,
    key: TextKey,
    given: &[Sg],
    composed: Composed,
) -> Result<ComposedSg, NoMemory>
    requires given { AreGiven (sgs_now given.now) }
    requires tuples { AreTuplesOf (sgs_now given.now) composed.tuples.items }
    requires distinct { AllPairs (λ xs ys. xs ≢ ys) composed.tuples.items }
    ensures { IfOk result (λ c. composed_now c ≡ record {
      sg = composed_sg (sgs_now given.now) composed.tuples.items composed.graph;
      tuples = composed.tuples.items;
    }) }
{
    let Composed { graph, tuples } = composed;
    let model = joined_model(alloc, given)?;
    let states = tuple_names(alloc, key, given, &tuples)?;
    let sg = Sg {
        model,
        graph,
        states,
    };
    Ok(ComposedSg { sg, tuples })
}

/// The cause by the names of signals and states, with the words of the first walk to an
/// interference.
fn named(
    alloc: Global,
    key: TextKey,
    given: &[Sg],
    parts: &[Coded],
    cause: Uncomposed,
) -> Result<NamedCause, NoMemory>
    requires few { length parts.now ≤ max_parts }
    requires tuple { ShowsTupleOf (sgs_now given.now) cause }
    requires first { ShowsUncomposed parts.now cause }
    ensures { IfOk result (IsNamed (sgs_now given.now) parts.now cause) }
{
    match cause {
        Uncomposed::NoMemory => Err(NoMemory),
        Uncomposed::Signal { clash, name } => Ok(named_clash(clash, name)),
        Uncomposed::TooMany(count) => Ok(NamedCause::Signals { count }),
        Uncomposed::States => Ok(NamedCause::States),
        Uncomposed::Interferes { at, name, up } => {
            let states = names_at(alloc, given, &at)?;
            let mut event = Text::copy_of(alloc, name.bytes())?;
            event.add(sign(up))?;
            let walk = walk_words(alloc, key, parts, &at)?;
            Ok(NamedCause::Interferes {
                states,
                event,
                walk,
            })
        }
        Uncomposed::Arcs => Ok(NamedCause::Arcs),
        Uncomposed::Constant(signal) => Ok(NamedCause::Constant { signal }),
    }
}

/// The words of the events of the first walk to a tuple.
fn walk_words(
    alloc: Global,
    key: TextKey,
    parts: &[Coded],
    at: &Tuple,
) -> Result<NameList, NoMemory>
    requires few { length parts.now ≤ max_parts }
    requires fit { StatesFit parts.now }
    requires reached { IsReached parts.now (joined_signals parts.now) at.now }
    ensures { IfOk result (AreWalkWords parts.now at.now) }
{
    let signals = signals_beside(alloc, key, parts)?;
    let system = System::of(alloc, parts, &signals)?;
    let walk = walk_to(alloc, key, &system, at.states())?;
    event_words(alloc, &signals, &walk)
}

/// What stands against joining the signal.
fn named_clash(clash: Clash, signal: Name) -> NamedCause
    ensures { IsNamed [] [] (Signal clash signal) result }
{
    match clash {
        Clash::Driven => NamedCause::Driven { signal },
        Clash::Private => NamedCause::Private { signal },
        Clash::Starts => NamedCause::Starts { signal },
    }
}
