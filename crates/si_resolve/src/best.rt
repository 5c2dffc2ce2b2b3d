//! The best candidate of a graph.

ghost use Rattle.std.specs.Prelude.{◌≡◌, IfOk, MatchOption};
ghost use Rattle.si_resolve.specs.Best.{Choice, Improves, NoneImproves};

use crate::block_list::block_list;
use crate::search::find_best;
use si_base::ids::NoMemory;
use si_base::limits::MAX_SIGNALS;
use si_checks::proper::Proper;
use si_conflicts::chains::CodeChains;
use si_conflicts::conflicts::count;
use si_insert::accept::Accepted;
use std::alloc::Global;

/// The best candidate: the accepted one that leaves the fewest conflicts, the first among equals.
/// It is None exactly where no accepted candidate leaves fewer conflicts than the graph has. It
/// fails only where memory runs out.
pub fn best(alloc: Global, graph: &Proper) -> Result<Option<Accepted>, NoMemory>
    ensures best { IfOk result (λ o. MatchOption o (NoneImproves graph.now)
        (λ a. (x : Choice) × Improves graph.now x × (x.classes ≡ a))) }
{
    let conflicts = count(alloc, graph.coded())?;
    if conflicts == 0 || graph.coded().graph().signals().len() >= MAX_SIGNALS {
        return Ok(None);
    }
    let chains = CodeChains::new(alloc, graph)?;
    let list = block_list(alloc, graph, &chains, conflicts)?;
    find_best(alloc, graph, chains, &list, conflicts)
}
