//! The best divisor of a graph.

ghost use Rattle.std.specs.Prelude.{◌≡◌, IfOk, MatchOption};
ghost use Rattle.si_map.specs.Best.{Choice, IsBest, IsBestPartition, NoneServes};
ghost use Rattle.si_bounds.specs.Loops.Fitted.{AreFitted};

use crate::fitted::fitted_signals;
use crate::search::find_best;
use si_base::ids::{Code, NoMemory};
use si_base::limits::MAX_SIGNALS;
use si_cell::library::Library;
use si_insert::accept::Accepted;
use si_insert::resolved::Resolved;
use si_match::functions::LibraryFunctions;
use std::alloc::Global;

/// The partition for the best divisor of the lineage's current graph: of the divisors of signals
/// that fit no cell, the one whose partition is accepted, leaves no conflict and leaves the least
/// weight, which is lower than that of the graph; the first among equals. It is None exactly where
/// no divisor serves so. It fails only where memory runs out.
pub fn best_divisor(
    alloc: Global,
    resolved: &Resolved,
    library: &Library,
) -> Result<Option<Accepted>, NoMemory>
    ensures best { IfOk result (λ o. MatchOption o
        (NoneServes resolved.now.current.coded library.now)
        (λ a. (x : Choice) × IsBest resolved.now.current.coded library.now x
        × (x.classes ≡ a))) }
{
    let functions = LibraryFunctions::of(alloc, library)?;
    let fitted = fitted_signals(resolved.distinct(), &functions);
    let best = best_by_functions(alloc, resolved, &functions, fitted)?;
    Ok(best)
}

/// The partition for the best divisor of the lineage's current graph, of which it is known which
/// signals fit, for a library whose cells' functions were made before.
pub(crate) fn best_by_functions(
    alloc: Global,
    resolved: &Resolved,
    library: &LibraryFunctions<'_>,
    fitted: Code,
) -> Result<Option<Accepted>, NoMemory>
    requires { AreFitted resolved.now.current.coded library.now fitted }
    ensures { IfOk result (IsBestPartition resolved.now.current.coded library.now) }
{
    let graph = resolved.distinct();
    if graph.proper().coded().graph().signals().len() >= MAX_SIGNALS {
        return Ok(None);
    }
    let best = find_best(alloc, graph, library, fitted)?;
    Ok(best)
}
