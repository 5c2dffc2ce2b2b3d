//! The partition for an instance, and the one that is forced at given states.

ghost use Rattle.std.specs.Prelude.{◌≡◌, IfOk, IfErr, length};
ghost use Rattle.si_closures.specs.Loops.WordSearch.{column};
ghost use Rattle.si_insert.specs.Partition.{IsLawful};
ghost use Rattle.si_cell.specs.Library.{IsInstance, instance_value};
ghost use Rattle.si_divisor.specs.Targets.{forced_by, forced_in};
ghost use Rattle.si_divisor.specs.PartitionFor.{IsPartitionFor, ShowsNone};

use crate::classes::classes_for;
use crate::fault::NoPartition;
use crate::function::function_of;
use crate::function_sets::{settled_alone, settled_for};
use si_base::ids::{NoMemory, StateId};
use si_base::sets::StateSet;
use si_cell::cell::Instance;
use si_cell::library::Library;
use si_checks::proper::Proper;
use si_insert::partition::Partition;
use std::alloc::Global;

/// The partition for the instance as the gate of a new signal: where the signal rises and falls,
/// and its value elsewhere, as far as the instance forces these. Or the first reason why there is
/// none, each looked for at all states before the next.
pub fn partition_for(
    alloc: Global,
    graph: &Proper,
    library: &Library,
    instance: &Instance,
) -> Result<Partition, NoPartition>
    requires { IsInstance library.now instance.now }
    ensures partition { IfOk result (λ p. IsPartitionFor graph.now.graph
        (forced_by (instance_value library.now instance.now) graph.now) p) }
    ensures lawful { IfOk result (λ p. IsLawful graph.now.graph p) }
    ensures fault { IfErr result (ShowsNone graph.now.graph
        (forced_by (instance_value library.now instance.now) graph.now)) }
{
    let settled = settled_alone(alloc, graph, function_of(library, instance))?;
    let classes = classes_for(alloc, graph.coded().graph(), &settled)?;
    Ok(Partition::known(graph, classes))
}

/// The partition of a new signal that is forced to 1 at the states of the one set, and to 0 at
/// those of the other: where the signal rises and falls, and its value elsewhere. Or the first
/// reason why there is none, each looked for at all states before the next.
pub fn partition_where(
    alloc: Global,
    graph: &Proper,
    up: &StateSet,
    down: &StateSet,
) -> Result<Partition, NoPartition>
    requires up_size { length up.now ≡ graph.now.graph.states }
    requires down_size { length down.now ≡ graph.now.graph.states }
    ensures partition { IfOk result
        (IsPartitionFor graph.now.graph (forced_in up.now down.now)) }
    ensures lawful { IfOk result (IsLawful graph.now.graph) }
    ensures fault { IfErr result (ShowsNone graph.now.graph (forced_in up.now down.now)) }
{
    let rising = first_words(alloc, up)?;
    let falling = first_words(alloc, down)?;
    let settled = settled_for(alloc, graph, rising, falling)?;
    let classes = classes_for(alloc, graph.coded().graph(), &settled)?;
    Ok(Partition::known(graph, classes))
}

/// For each state the word that has bit 0 where the set has the state, and no bit else. It fails
/// only where memory runs out.
fn first_words(alloc: Global, set: &StateSet) -> Result<Vec<u128>, NoMemory>
    ensures { IfOk result (λ words. column 0 words.items ≡ set.now) }
{
    let mut words = Vec::new(alloc);
    for s in 0..set.size() {
        words.push(u128::from(set.has(StateId(s))))?;
    }
    Ok(words)
}
