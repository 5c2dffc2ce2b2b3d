//! All breaches of a graph, kind by kind.

ghost use Rattle.std.specs.Prelude.{ℕ, List, IfOk};
ghost use Rattle.si_base.specs.declared.ids.Event.{Event};
ghost use Rattle.si_breaches.specs.Breaches.{AreBreaches, AreFirstWays};
ghost use Rattle.si_breaches.specs.Loops.Breaches.{breaches_of};
ghost use Rattle.si_walks.specs.Tree.{IsTree};

use crate::clashes::{Clashing, clashes};
use crate::forks::{Fork, forks};
use crate::losses::{Loss, losses};
use crate::splits::{Split, splits};
use si_base::graph::Edge;
use si_base::ids::NoMemory;
use si_graph::graph::Graph;
use std::alloc::Global;

/// What was found of each kind.
#[derive(Drop)]
pub(crate) struct FoundBreaches {
    pub(crate) splits: Vec<Split>,
    pub(crate) clashes: Vec<Clashing>,
    pub(crate) forks: Vec<Fork>,
    pub(crate) losses: Vec<Loss>,
}

/// All that a graph has of each kind. It fails only where memory runs out.
pub(crate) fn breaches(
    alloc: Global,
    graph: &Graph,
    last: &[Option<Edge>],
) -> Result<FoundBreaches, NoMemory>
    requires { IsTree graph.now last.now }
    ensures { IfOk result (λ found. (walk : ℕ → List Event) → AreFirstWays graph.now walk
        → AreBreaches graph.now walk (breaches_of found)) }
{
    let splits = splits(alloc, graph)?;
    let clashes = clashes(alloc, graph, last)?;
    let forks = forks(alloc, graph)?;
    let losses = losses(alloc, graph)?;
    Ok(FoundBreaches {
        splits,
        clashes,
        forks,
        losses,
    })
}
