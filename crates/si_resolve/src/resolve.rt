//! Resolving: insertions of best candidates, one after another.

ghost use Rattle.std.specs.Prelude.{◌≡◌, List, IfOk, IfErr, IsTrue, All, MatchOption};
ghost use Rattle.std.specs.Prelude.{codes};
ghost use Rattle.si_base.specs.Words.{is_signal_name};
ghost use Rattle.si_checks.specs.Faults.{ShowsConflict};
ghost use Rattle.si_insert.specs.declared.lineage.TraceStep.{TraceStep};
ghost use Rattle.si_insert.specs.Fresh.{IsFresh};
ghost use Rattle.si_insert.specs.Lineage.{Extends, ExtendsBy};
ghost use Rattle.si_resolve.specs.Best.{Choice, Improves, NoneImproves};
ghost use Rattle.si_resolve.specs.Trace.{IsResolvingTrace, InsertsCandidate, EndsResolved};
ghost use Rattle.si_resolve.specs.Ends.{ShowsStuck};

use crate::best::best;
use si_base::ids::{NoMemory, StateId};
use si_base::text::Name;
use si_checks::distinct::NotDistinct;
use si_checks::proper::Proper;
use si_insert::accept::Accepted;
use si_insert::fresh::fresh_name;
use si_insert::lineage::Lineage;
use si_insert::resolved::Resolved;
use std::alloc::Global;

/// Why resolving went no further.
#[derive(Clone, Copy, PartialEq, Eq, Debug)]
pub enum Stuck {
    /// Want of memory.
    NoMemory,
    /// No accepted candidate leaves fewer conflicts than the graph has, of which this is the first.
    Conflict { p: StateId, q: StateId },
}

/// The lineage as far as resolving went, and why it went no further.
#[derive(Drop)]
pub struct Unresolved {
    pub lineage: Lineage,
    pub cause: Stuck,
}

/// The lineage with the best candidate of its current graph inserted, as `csc` with the least free
/// number, again and again, until no conflict is left. `Conflict` comes exactly where the best
/// candidate leaves no fewer conflicts than there are, or where there is none. Where the names of
/// all signals are signal names, those of the inserted ones are, too.
pub fn resolve(alloc: Global, lineage: Lineage) -> Result<Resolved, Unresolved>
    ensures resolved { IfOk result (λ r. (trace : List TraceStep) × ExtendsBy lineage trace r
        × EndsResolved lineage.current trace r.current) }
    ensures names { IfOk result (λ r.
        All (λ x. IsTrue (is_signal_name x.name)) lineage.current.coded.graph.signals
        → All (λ x. IsTrue (is_signal_name x.name)) r.current.coded.graph.signals) }
    ensures unresolved { IfErr result (λ u. (trace : List TraceStep)
        × ExtendsBy lineage trace u.lineage
        × IsResolvingTrace lineage.current trace u.lineage.current
        × ShowsStuck u.lineage.current.coded u.cause) }
{
    let mut lineage = lineage;
    loop {
        match Resolved::make(alloc, lineage) {
            Ok(resolved) => return Ok(resolved),
            Err((unresolved, fault)) => lineage = with_best_candidate(alloc, unresolved, fault)?,
        }
    }
}

/// The lineage of a graph with a conflict, with the best candidate inserted.
fn with_best_candidate(
    alloc: Global,
    lineage: Lineage,
    fault: NotDistinct,
) -> Result<Lineage, Unresolved>
    requires { ShowsConflict lineage.current.coded fault }
    ensures extended { IfOk result (λ next. (p : TraceStep) × Extends lineage p next
        × InsertsCandidate lineage.current p next.current × IsTrue (is_signal_name p.name)) }
    ensures unresolved { IfErr result (λ u. (u.lineage ≡ lineage)
        × ShowsStuck lineage.current.coded u.cause) }
{
    let NotDistinct::Conflict { p, q } = fault else {
        return Err(without_memory(lineage));
    };
    let found = match best_insertion(alloc, lineage.current()) {
        Ok(found) => found,
        Err(NoMemory) => return Err(without_memory(lineage)),
    };
    let Some(Insertion { accepted, name }) = found else {
        return Err(Unresolved {
            lineage,
            cause: Stuck::Conflict { p, q },
        });
    };
    match lineage.insert(alloc, accepted, name) {
        Ok(next) => Ok(next),
        Err((lineage, _accepted, NoMemory)) => Err(without_memory(lineage)),
    }
}

/// The lineage, where memory ran out.
fn without_memory(lineage: Lineage) -> Unresolved
    ensures lineage { result.lineage ≡ lineage }
    ensures cause { result.cause ≡ Stuck.NoMemory }
{
    Unresolved {
        lineage,
        cause: Stuck::NoMemory,
    }
}

/// An accepted partition and the name of the new signal.
#[derive(Drop)]
struct Insertion {
    accepted: Accepted,
    name: Name,
}

/// With what the names of signals that resolve conflicts begin.
const STEM: &[u8] = b"csc";

/// The best candidate, if it leaves fewer conflicts than the graph has, and a name for its signal.
fn best_insertion(alloc: Global, graph: &Proper) -> Result<Option<Insertion>, NoMemory>
    ensures { IfOk result (λ o. MatchOption o (NoneImproves graph.now)
        (λ r. (x : Choice) × Improves graph.now x × (x.classes ≡ r.accepted)
        × IsFresh graph.now.graph.signals (codes "csc") r.name
        × IsTrue (is_signal_name r.name))) }
{
    let Some(accepted) = best(alloc, graph)? else {
        return Ok(None);
    };
    let name = fresh_name(alloc, graph.coded().graph(), STEM)?;
    Ok(Some(Insertion { accepted, name }))
}
