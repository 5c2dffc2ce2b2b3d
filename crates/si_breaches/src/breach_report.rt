//! The report of a graph that isn't proper.

ghost use Rattle.std.specs.Prelude.{ℕ, List, ◌≡◌, [], IfOk, length};
ghost use Rattle.si_base.specs.Codes.{IsConnected};
ghost use Rattle.si_base.specs.declared.ids.Event.{Event};
ghost use Rattle.si_breaches.specs.BreachText.{IsBreachText, breach_count};
ghost use Rattle.si_breaches.specs.Breaches.{AreBreaches, AreFirstWays};
ghost use Rattle.si_breaches.specs.Loops.Breaches.{breaches_of};
ghost use Rattle.si_walks.specs.Tree.{IsTree};

use crate::breach_lines::{add_clashes, add_forks, add_losses, add_splits};
use crate::breaches::{FoundBreaches, breaches};
use si_base::graph::Edge;
use si_base::ids::NoMemory;
use si_base::names::Names;
use si_base::text::Text;
use si_graph::graph::Graph;
use si_told::lines::{add_dropped, add_told};
use si_walks::tree::last_arcs;
use std::alloc::Global;

/// The text of all breaches of a graph with a name for each state, each with a shortest walk: how
/// many lines there would be, and the first of each kind, those of states that were dropped before
/// all others. It fails only where memory runs out.
pub fn list_breaches(
    alloc: Global,
    graph: &Graph,
    states: &Names,
    dropped: &Names,
) -> Result<Text, NoMemory>
    requires connected { IsConnected graph.now }
    requires states { length states.now ≡ graph.now.states }
    ensures { IfOk result (IsBreachText graph.now states.now dropped.now) }
{
    let _arcs = graph.arcs();
    let last = last_arcs(alloc, graph)?;
    let found = breaches(alloc, graph, &last)?;
    text_of(alloc, graph, &last, states, dropped, &found)
}

/// The text of what was found.
fn text_of(
    alloc: Global,
    graph: &Graph,
    last: &[Option<Edge>],
    states: &Names,
    dropped: &Names,
    found: &FoundBreaches,
) -> Result<Text, NoMemory>
    requires connected { IsConnected graph.now }
    requires states { length states.now ≡ graph.now.states }
    requires tree { IsTree graph.now last.now }
    requires found { (walk : ℕ → List Event) → AreFirstWays graph.now walk
        → AreBreaches graph.now walk (breaches_of found.now) }
    ensures { IfOk result (IsBreachText graph.now states.now dropped.now) }
{
    let _arcs = graph.arcs();
    let mut text = Text::copy_of(alloc, b"")?;
    add_told(alloc, &mut text, u128::from(dropped.len()) + count(found))?;
    add_dropped(&mut text, dropped)?;
    add_splits(alloc, &mut text, graph, last, states, &found.splits)?;
    add_clashes(alloc, &mut text, graph, last, states, &found.clashes)?;
    add_forks(alloc, &mut text, graph, last, states, &found.forks)?;
    add_losses(alloc, &mut text, graph, last, states, &found.losses)?;
    Ok(text)
}

/// How many lines there are of all kinds.
fn count(found: &FoundBreaches) -> u128
    ensures { result ≡ breach_count [] (breaches_of found.now) }
{
    let splits = found.splits.len() as u128;
    let clashes = 2 * found.clashes.len() as u128;
    let forks = found.forks.len() as u128;
    splits + clashes + forks + found.losses.len() as u128
}
