//! Insertions one after another.

ghost use Rattle.std.specs.Prelude.{IfSome};
ghost use Rattle.si_insert.specs.Accepted.{IsAccepted};

use si_base::ids::NoMemory;
use si_checks::proper::Proper;
use si_insert::accept::{Accepted, accept};
use si_insert::apply::apply;
use si_insert::fresh::fresh_name;
use si_insert::partition::{Class, Partition};
use std::alloc::Global;

/// With what the names of signals that resolve conflicts begin.
pub const STEM: &[u8] = b"csc";

/// The classes by which signals are inserted, each for the graph that the ones before it make.
/// Nothing is known of them.
#[derive(Drop)]
pub struct Chain {
    /// The classes of each insertion.
    pub steps: Vec<Vec<Class>>,
}

impl Chain {
    /// No insertion.
    pub(crate) fn none(alloc: Global) -> Chain {
        Chain {
            steps: Vec::new(alloc),
        }
    }

    /// The same insertions and one more.
    pub(crate) fn and(&self, alloc: Global, classes: &[Class]) -> Result<Chain, NoMemory> {
        let mut steps = Vec::new(alloc);
        for step in &self.steps {
            steps.push(Vec::from_slice(alloc, step.as_slice())?)?;
        }
        steps.push(Vec::from_slice(alloc, classes)?)?;
        Ok(Chain { steps })
    }
}

/// The accepted partition of these classes, if they are one.
pub fn accepted_of(graph: &Proper, classes: Vec<Class>) -> Option<Accepted>
    ensures { IfSome result (IsAccepted graph.now.graph) }
{
    if classes.len() != graph.coded().graph().states() as usize {
        return None;
    }
    let Ok(partition) = Partition::lawful(graph, classes) else {
        return None;
    };
    match accept(graph, partition) {
        Ok(accepted) => Some(accepted),
        Err(_rejected) => None,
    }
}

/// The graph with a signal inserted by these classes, if they are accepted.
pub(crate) fn grown(
    alloc: Global,
    graph: &Proper,
    classes: &[Class],
) -> Result<Option<Proper>, NoMemory> {
    let list = Vec::from_slice(alloc, classes)?;
    let Some(accepted) = accepted_of(graph, list) else {
        return Ok(None);
    };
    let name = fresh_name(alloc, graph.coded().graph(), STEM)?;
    let next = apply(alloc, graph, &accepted, &name)?;
    Ok(Some(next))
}
