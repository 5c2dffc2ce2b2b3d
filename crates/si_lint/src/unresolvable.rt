//! Conflicts that no insertion resolves.

ghost use Rattle.std.specs.Prelude.{◌<◌, ◌≤◌, ◌↔◌, IfOk, OnOk, IsTrue};
ghost use Rattle.si_base.specs.Proper.{pair_place};
ghost use Rattle.si_conflicts.specs.Conflicts.{AreFirstConflicts, pairs_of};
ghost use Rattle.si_told.specs.All.{AreAll};
ghost use Rattle.si_lint.specs.Findings.{IsJoinedOfFirst, IsUnresolvable, max_looked_at};
ghost use Rattle.si_told.specs.Loops.Search.{Adds};
ghost use Rattle.si_lint.specs.Loops.Search.{IsTwinConflictOf};
ghost use Rattle.si_walks.specs.Twins.{AreTwinPairsOrNone, IsTwinConflict, max_twin_states};

use si_base::ids::{NoMemory, StateId};
use si_base::sets::StateSet;
use si_checks::conflicts::differ;
use si_conflicts::conflicts::{Pair, conflicts};
use si_graph::coded::Coded;
use si_walks::twin_pairs::{are_twins, twin_pairs};
use si_walks::witness::find_witness;
use std::alloc::Global;

/// How many conflicts of a large graph are looked at.
const MAX_LOOKED_AT: u32 = 1000;

/// The conflicts whose states are twins, in order; of a graph with too many states for a look at all
/// pairs those of the first conflicts to whose states input events alone lead from one state. It
/// fails only where memory runs out.
pub(crate) fn unresolvable(alloc: Global, coded: &Coded) -> Result<Vec<Pair>, NoMemory>
    ensures { IfOk result
        (λ found. AreAll pair_place (IsUnresolvable coded.now) (pairs_of found.items)) }
{
    let twins = twin_pairs(alloc, coded)?;
    if twins.is_some() {
        let found = twin_conflicts(alloc, coded, &twins)?;
        return Ok(found);
    }
    let pairs = conflicts(alloc, coded, MAX_LOOKED_AT)?;
    let joined = joined_of(alloc, coded, pairs.as_slice())?;
    Ok(joined)
}

/// The conflicts whose states are twins.
fn twin_conflicts(
    alloc: Global,
    coded: &Coded,
    twins: &Option<StateSet>,
) -> Result<Vec<Pair>, NoMemory>
    requires twins { AreTwinPairsOrNone coded.now twins.now }
    requires few { coded.now.graph.states ≤ max_twin_states }
    ensures { IfOk result
        (λ found. AreAll pair_place (IsTwinConflict coded.now) (pairs_of found.items)) }
{
    let graph = coded.graph();
    let mut found: Vec<Pair> = Vec::new(alloc);
    for k in 0..graph.states() {
        add_twins_of(coded, twins, StateId(k), &mut found)?;
    }
    Ok(found)
}

/// Puts those of a state with later ones last.
fn add_twins_of(
    coded: &Coded,
    twins: &Option<StateSet>,
    p: StateId,
    found: &mut Vec<Pair>,
) -> Result<(), NoMemory>
    requires twins { AreTwinPairsOrNone coded.now twins.now }
    requires few { coded.now.graph.states ≤ max_twin_states }
    requires state { p < coded.now.graph.states }
    ensures { OnOk result (Adds pair_place (IsTwinConflictOf coded.now p)
        (pairs_of found.old.items) (pairs_of found.new.items)) }
{
    let graph = coded.graph();
    for k in 0..graph.states() {
        let q = StateId(k);
        if is_twin_conflict(coded, twins, p, q) {
            found.push(Pair { p, q })?;
        }
    }
    Ok(())
}

/// Whether two states are a conflict of twins, in this order.
fn is_twin_conflict(coded: &Coded, twins: &Option<StateSet>, p: StateId, q: StateId) -> bool
    requires twins { AreTwinPairsOrNone coded.now twins.now }
    requires few { coded.now.graph.states ≤ max_twin_states }
    requires p { p < coded.now.graph.states }
    requires q { q < coded.now.graph.states }
    ensures { IsTrue result ↔ IsTwinConflict coded.now (p, q) }
{
    let graph = coded.graph();
    if p >= q || coded.code(p) != coded.code(q) {
        return false;
    }
    are_twins(twins, coded, p, q) && differ(graph, p, q)
}

/// Those of the first conflicts to whose states input events alone lead from one state.
fn joined_of(alloc: Global, coded: &Coded, pairs: &[Pair]) -> Result<Vec<Pair>, NoMemory>
    requires { AreFirstConflicts coded.now max_looked_at (pairs_of pairs.now) }
    ensures { IfOk result
        (λ found. AreAll pair_place (IsJoinedOfFirst coded.now) (pairs_of found.items)) }
{
    let mut found: Vec<Pair> = Vec::new(alloc);
    for pair in pairs {
        let witness = find_witness(alloc, coded, pair.p, pair.q)?;
        if witness.is_some() {
            found.push(*pair)?;
        }
    }
    Ok(found)
}
