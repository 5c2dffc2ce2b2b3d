//! The conflicts of a graph, resolved.

ghost use Rattle.std.specs.Prelude.{◌≡◌, ℕ, IfOk, IfErr, length, Ok};
ghost use Rattle.si_insert.specs.Lineage.{AllGiven};
ghost use Rattle.si_resolve.specs.Best.{IsStuck};
ghost use Rattle.si_resolve.specs.Ends.{ShowsStuck};
ghost use Rattle.si_refusals.specs.Ending.{Answered, MayStop, ending_of};
ghost use Rattle.si_refusals.specs.Refusal.{TextRefused};
ghost use Rattle.si_readings.specs.Checks.{IsNamed};
ghost use Rattle.si_stages.specs.Resolving as stage;

use si_base::ids::NoMemory;
use si_base::names::Names;
use si_checks::proper::Proper;
use si_circuit::spelling::{current_state_word, insertions};
use si_graph::graph::Graph;
use si_insert::lineage::Lineage;
use si_insert::resolved::Resolved;
use si_readings::checks::proper_of;
use si_refusals::refusals::Refusal;
use si_resolve::resolve::{Stuck, Unresolved, resolve};
use std::alloc::Global;

/// The lineage of the graph with its conflicts resolved, where these are the names of its states.
///
/// # Errors
///
/// `Improper` exactly where the graph isn't proper, with its first breach, else `Unresolved`
/// exactly where some conflicts are left at the end, with the first and the insertions. `NoMemory`
/// only where memory runs out.
pub fn resolution(alloc: Global, graph: Graph, states: &Names) -> Result<Resolved, Refusal<'static>>
    requires given { AllGiven graph.signals }
    requires named { IsNamed graph states.now }
    ensures ok { IfOk result (λ l. stage.resolution graph states.now (Ok l)) }
    ensures err { IfErr result (λ r. MayStop (stage.resolution graph states.now) (ending_of r)) }
{
    let proper = proper_of(alloc, graph, states)?;
    lineage_of(alloc, proper, states)
}

/// The lineage of the graph with its conflicts resolved, where these are the names of the graph's
/// states. `Unresolved` comes exactly where some are left at the end, with the first and the
/// insertions.
pub fn lineage_of(
    alloc: Global,
    graph: Proper,
    states: &Names,
) -> Result<Resolved, Refusal<'static>>
    requires given { AllGiven graph.graph.signals }
    requires names { length states.now ≡ graph.graph.states }
    ensures ok { IfOk result (λ l. stage.lineage_of graph states.now (Ok l)) }
    ensures err { IfErr result (λ r. MayStop (stage.lineage_of graph states.now) (ending_of r)) }
{
    let Ok(lineage) = Lineage::start(alloc, graph) else {
        return Err(Refusal::NoMemory);
    };
    match resolve(alloc, lineage) {
        Ok(resolved) => Ok(resolved),
        Err(Unresolved { lineage, cause }) => Err(what_is_left(alloc, &lineage, states, cause)?),
    }
}

/// The first conflict of the lineage's current graph, and the insertions.
fn what_is_left(
    alloc: Global,
    lineage: &Lineage,
    states: &Names,
    cause: Stuck,
) -> Result<Refusal<'static>, NoMemory>
    requires names { length states.now ≡ lineage.now.given.graph.states }
    requires shown { ShowsStuck lineage.now.current.coded cause }
    ensures { IfOk result (λ r. (pair : ℕ × ℕ) × IsStuck lineage.now.current.coded pair
        × (ending_of r
        ≡ Answered (TextRefused (stage.conflict_refusal states.now lineage.now pair)))) }
{
    match cause {
        Stuck::NoMemory => Err(NoMemory),
        Stuck::Conflict { p, q } => Ok(Refusal::Unresolved {
            p: current_state_word(alloc, lineage, states, p)?,
            q: current_state_word(alloc, lineage, states, q)?,
            inserts: insertions(alloc, lineage, states)?,
        }),
    }
}
