//! The rule with least partitions: the best candidate, by the least partition of its target.

use crate::chain::{Chain, grown};
use crate::pairs::lessened;
use crate::ranked::Candidate;
use crate::trials::Trials;
use si_base::ids::NoMemory;
use si_base::limits::MAX_SIGNALS;
use si_checks::proper::Proper;
use si_resolve::best::best;
use std::alloc::Global;

/// The insertions of best candidates, each by the least partition of its target, where they leave
/// no conflict in the end. It fails only where memory runs out.
pub(crate) fn least_by_rule(alloc: Global, given: &Proper) -> Result<Option<Chain>, NoMemory> {
    let mut graph = given.copy(alloc)?;
    let mut chain = Chain::none(alloc);
    for _ in 0..MAX_SIGNALS {
        let Some(candidate) = best_lessened(alloc, &graph)? else {
            return Ok(None);
        };
        chain = chain.and(alloc, &candidate.classes)?;
        if candidate.left == 0 {
            return Ok(Some(chain));
        }
        match grown(alloc, &graph, &candidate.classes)? {
            Some(next) => graph = next,
            None => return Ok(None),
        }
    }
    Ok(None)
}

/// The best candidate of the graph, by the least partition of its target.
fn best_lessened(alloc: Global, graph: &Proper) -> Result<Option<Candidate>, NoMemory> {
    let Some(accepted) = best(alloc, graph)? else {
        return Ok(None);
    };
    let mut trials = Trials::new(alloc, graph)?;
    let classes = accepted.partition().classes();
    let Some(left) = trials.left_below(alloc, classes, u64::MAX)? else {
        return Ok(None);
    };
    let found = Candidate {
        parent: 0,
        left,
        classes: Vec::from_slice(alloc, classes)?,
    };
    let less = lessened(alloc, graph, &mut trials, found)?;
    Ok(Some(less))
}
