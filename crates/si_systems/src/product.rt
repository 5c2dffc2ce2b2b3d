//! From the texts of graphs to the text of their product.

ghost use Rattle.std.specs.Prelude.{◌≡◌, ◌≢◌, ◌≤◌, AllPairs, map, IfOk, IfErr, MatchOption, Ok};
ghost use Rattle.std.specs.Prelude.{length, vec_items};
ghost use Rattle.si_base.specs.Codes.{IsDeterministic};
ghost use Rattle.si_composing.specs.JoinedSignals.{max_parts};
ghost use Rattle.si_graph.specs.Faults.{ShowsUncoded};
ghost use Rattle.si_readings.specs.Checks.{IsNamed};
ghost use Rattle.si_refusals.specs.Ending.{MayStop, ending_of};
ghost use Rattle.si_sg.specs.CanonicalText.{sg_text};
ghost use Rattle.si_systems.specs.Loops.Deterministic.{AreParts};
ghost use Rattle.si_systems.specs.Loops.Parts.{AreGiven, AreTuplesOf, sgs_now};
ghost use Rattle.si_systems.specs.Names.{composed_sg};
ghost use Rattle.si_systems.specs.Product as stage;
ghost use Rattle.si_systems.specs.Product.{IsCauseNamed, ShowsFirstSplit};
ghost use Rattle.si_words.specs.Loops.Reads.{words_now};

use crate::compose::{graphs_in, joined_texts, with_names};
use si_base::ids::NoMemory;
use si_base::names::Names;
use si_base::text::Text;
use si_base::text_key::TextKey;
use si_composing::compose::Composed;
use si_graph::coded::{CodeFault, Coded};
use si_graph::graph::Graph;
use si_product::product::{NoProduct, product};
use si_refusals::breach::{NamedBreach, event_word, state_name};
use si_refusals::refusals::Refusal;
use si_refusals::uncomposed::NamedCause;
use si_sg::read::Sg;
use si_sg::write::write_sg;
use std::alloc::Global;

/// The text of the product of all the graphs that texts give. A refusal shows the names of the
/// texts' files.
///
/// # Errors
///
/// `BadText` with the first fault of the texts in their order, else `Improper` with the first two
/// arcs of one state and one event of the first graph that isn't deterministic, else `Uncomposed`
/// with the first cause against a product. `NoMemory` only where memory runs out.
pub fn product_texts<'w>(
    alloc: Global,
    files: &[&'w str],
    texts: &[Vec<u8>],
) -> Result<Text, Refusal<'w>>
    requires few { length files.now ≤ max_parts }
    requires texts { length texts.now ≡ length files.now }
    ensures ok { IfOk result (λ output.
        stage.product (words_now files.now) (map vec_items texts.now) (Ok output)) }
    ensures err { IfErr result (λ r. MayStop
        (stage.product (words_now files.now) (map vec_items texts.now)) (ending_of r)) }
{
    let all = joined_texts(alloc, texts)?;
    let key = TextKey::of(all.bytes());
    let given = graphs_in(alloc, files, texts)?;
    let parts = deterministic_parts(alloc, &given)?;
    production(alloc, key, &given, &parts)
}

/// Copies of the graphs, where each is deterministic.
fn deterministic_parts(alloc: Global, given: &[Sg]) -> Result<Vec<Graph>, Refusal<'static>>
    requires { AreGiven (sgs_now given.now) }
    ensures ok { IfOk result
        (λ parts. stage.all_deterministic (sgs_now given.now) (Ok parts.items)) }
    ensures err { IfErr result
        (λ r. MayStop (stage.all_deterministic (sgs_now given.now)) (ending_of r)) }
{
    let mut parts = Vec::new(alloc);
    for sg in given {
        let graph = sg.graph.copy(alloc)?;
        let part = deterministic(alloc, graph, &sg.states)?;
        let Ok(()) = parts.push(part) else {
            return Err(Refusal::NoMemory);
        };
    }
    Ok(parts)
}

/// The graph, where it is deterministic.
fn deterministic(alloc: Global, graph: Graph, states: &Names) -> Result<Graph, Refusal<'static>>
    requires { IsNamed graph states.now }
    ensures ok { IfOk result (λ part. stage.deterministic graph states.now (Ok part)) }
    ensures err { IfErr result
        (λ r. MayStop (stage.deterministic graph states.now) (ending_of r)) }
{
    match Coded::make(alloc, graph) {
        Ok(coded) => Ok(coded.into_graph()),
        Err((graph, fault)) => match first_split(alloc, &graph, states, fault)? {
            None => Ok(graph),
            Some(breach) => Err(Refusal::Improper { breach }),
        },
    }
}

/// The first two arcs of one state and one event of a graph that has no codes; `None` where it is
/// deterministic all the same.
fn first_split(
    alloc: Global,
    graph: &Graph,
    states: &Names,
    fault: CodeFault,
) -> Result<Option<NamedBreach>, NoMemory>
    requires named { IsNamed graph.now states.now }
    requires shown { ShowsUncoded graph.now fault }
    ensures { IfOk result (λ split. MatchOption split (IsDeterministic graph.now)
        (ShowsFirstSplit graph.now states.now)) }
{
    let signals = graph.signals();
    match fault {
        CodeFault::NoMemory => Err(NoMemory),
        CodeFault::Nondeterministic { s, e, t, u } => Ok(Some(NamedBreach::Nondeterministic {
            state: state_name(alloc, states, s)?,
            event: event_word(alloc, signals, e)?,
            one: state_name(alloc, states, t)?,
            other: state_name(alloc, states, u)?,
        })),
        CodeFault::Inconsistent { .. } => Ok(None),
    }
}

/// The text of the product of the graphs, of which these are copies, or the refusal that is due.
fn production(
    alloc: Global,
    key: TextKey,
    given: &[Sg],
    parts: &[Graph],
) -> Result<Text, Refusal<'static>>
    requires few { length parts.now ≤ max_parts }
    requires given { AreGiven (sgs_now given.now) }
    requires parts { AreParts (sgs_now given.now) parts.now }
    ensures ok { IfOk result
        (λ output. stage.production (sgs_now given.now) parts.now (Ok output)) }
    ensures err { IfErr result
        (λ r. MayStop (stage.production (sgs_now given.now) parts.now) (ending_of r)) }
{
    match product(alloc, key, parts) {
        Ok(composed) => Ok(text_of(alloc, key, given, composed)?),
        Err(cause) => {
            let cause = named(cause)?;
            Err(Refusal::Uncomposed { cause })
        }
    }
}

/// The text of a graph whose states are tuples of states of the given graphs.
fn text_of(alloc: Global, key: TextKey, given: &[Sg], made: Composed) -> Result<Text, NoMemory>
    requires given { AreGiven (sgs_now given.now) }
    requires tuples { AreTuplesOf (sgs_now given.now) made.tuples.items }
    requires distinct { AllPairs (λ xs ys. xs ≢ ys) made.tuples.items }
    requires count { made.graph.states ≡ length made.tuples.items }
    ensures { IfOk result (λ text. text
        ≡ sg_text (composed_sg (sgs_now given.now) made.tuples.items made.graph)) }
{
    let whole = with_names(alloc, key, given, made)?;
    write_sg(alloc, &whole.sg)
}

/// The cause by the name of its signal.
fn named(cause: NoProduct) -> Result<NamedCause, NoMemory>
    ensures { IfOk result (IsCauseNamed cause) }
{
    match cause {
        NoProduct::NoMemory => Err(NoMemory),
        NoProduct::Driven(signal) => Ok(NamedCause::Driven { signal }),
        NoProduct::TooMany(count) => Ok(NamedCause::Signals { count }),
        NoProduct::States => Ok(NamedCause::States),
        NoProduct::Arcs => Ok(NamedCause::Arcs),
    }
}
