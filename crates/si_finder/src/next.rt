//! Whether the next hidden signal can be inserted where its gate says that it switches.

ghost use Rattle.std.specs.Prelude.{◌≡◌, ℕ, ◌<◌, ◌↔◌, ◌∷◌, [], IfOk, IsTrue, MatchOption, length};
ghost use Rattle.si_base.specs.Order.{IsFirst};
ghost use Rattle.si_base.specs.Sets.{IsDisjoint, IsIn};
ghost use Rattle.si_base.specs.Graph.{StateGraph};
ghost use Rattle.si_finder.specs.Loops.Next.{IsDecided, IsJudged, IsTorn};
ghost use Rattle.si_finder.specs.NotFound.{IsObstacle, SwitchesBothWays};
ghost use Rattle.si_insert.specs.Partition.{IsLawful};

use crate::not_found::Obstacle;
use crate::switch_sets::SwitchSets;
use si_base::ids::{NoMemory, StateId};
use si_base::sets::StateSet;
use si_candidates::classes::{ClassFault, classes};
use si_checks::proper::Proper;
use si_insert::accept::{Accepted, accept};
use si_insert::partition::Partition;
use std::alloc::Global;

/// The partition by which the next hidden signal can be inserted, or why it can't.
#[derive(Drop)]
pub(crate) enum Next {
    Found(Accepted),
    Stopped(Obstacle),
}

/// The first state that is in both sets.
fn first_in_both(one: &StateSet, other: &StateSet) -> Option<StateId>
    requires { length other.now ≡ length one.now }
    ensures { MatchOption result (IsDisjoint one.now other.now)
        (IsFirst (λ s. s ∷ []) (λ s. IsIn one.now s × IsIn other.now s)) }
{
    for k in 0..one.size() {
        if is_in_both(one, other, StateId(k)) {
            return Some(StateId(k));
        }
    }
    None
}

/// Whether the state is in both sets.
fn is_in_both(one: &StateSet, other: &StateSet, s: StateId) -> bool
    requires one { s < length one.now }
    requires other { s < length other.now }
    ensures { IsTrue result ↔ (IsIn one.now s × IsIn other.now s) }
{
    one.has(s) && other.has(s)
}

/// Why no partition has these sets, as far as the sets alone tell.
fn set_obstacle(sets: &SwitchSets) -> Option<Obstacle>
    requires { length sets.now.minus ≡ length sets.now.plus }
    ensures { MatchOption result (SwitchesBothWays sets.now.plus sets.now.minus)
        (λ why. (g : StateGraph) → IsObstacle g sets.now.plus sets.now.minus why) }
{
    let Some(_) = sets.plus.first_from(StateId(0)) else {
        return Some(Obstacle::NeverUp);
    };
    let Some(_) = sets.minus.first_from(StateId(0)) else {
        return Some(Obstacle::NeverDown);
    };
    match first_in_both(&sets.plus, &sets.minus) {
        Some(s) => Some(Obstacle::Both { s }),
        None => None,
    }
}

/// Whether the partition is accepted.
fn judged(graph: &Proper, partition: Partition) -> Next
    requires { IsLawful graph.now.graph partition }
    ensures { IsJudged graph.now.graph partition result }
{
    match accept(graph, partition) {
        Ok(accepted) => Next::Found(accepted),
        Err((_partition, why)) => Next::Stopped(Obstacle::Refused { why }),
    }
}

/// What becomes of the signal where its sets have no classes. It fails only where memory ran out.
fn torn(fault: ClassFault) -> Result<Next, NoMemory>
    ensures { IfOk result (IsTorn fault) }
{
    match fault {
        ClassFault::NoClasses { s } => Ok(Next::Stopped(Obstacle::Classes { s })),
        ClassFault::NoMemory => Err(NoMemory),
    }
}

/// Whether a signal that rises and falls over these sets can be inserted into the graph. It fails
/// only where memory runs out.
pub(crate) fn decided(alloc: Global, graph: &Proper, sets: &SwitchSets) -> Result<Next, NoMemory>
    requires plus { length sets.now.plus ≡ graph.now.graph.states }
    requires minus { length sets.now.minus ≡ graph.now.graph.states }
    ensures { IfOk result (IsDecided graph.now.graph sets.now.plus sets.now.minus) }
{
    if let Some(why) = set_obstacle(sets) {
        return Ok(Next::Stopped(why));
    }
    match classes(alloc, graph, &sets.plus, &sets.minus) {
        Ok(partition) => Ok(judged(graph, partition)),
        Err(fault) => torn(fault),
    }
}
