//! The best pairs of blocks of a graph, each with the least partition of its target.

use crate::least::least_classes;
use crate::ranked::{Candidate, Ranked};
use crate::sided::{Sided, sided_blocks};
use crate::trials::Trials;
use crate::work::Work;
use si_base::ids::NoMemory;
use si_checks::proper::Proper;
use si_insert::partition::Class;
use std::alloc::Global;

/// So many insertions into the graph that leave the fewest conflicts, by pairs of blocks, as far as
/// the work goes. The graph has this place in a list. It fails only where memory runs out.
pub(crate) fn best_pairs(
    alloc: Global,
    graph: &Proper,
    place: usize,
    limit: usize,
    work: &mut Work,
) -> Result<Vec<Candidate>, NoMemory> {
    let blocks = sided_blocks(alloc, graph)?;
    let mut pairs = Pairs {
        trials: Trials::new(alloc, graph)?,
        classes: Vec::new(alloc),
        best: Ranked::none(alloc, limit),
        place,
    };
    for j in 0..blocks.len() {
        pairs.try_row(alloc, &blocks, j, work)?;
    }
    pairs.lessened(alloc, graph)
}

/// The best pairs so far, and the classes of the one that is looked at.
#[derive(Drop)]
struct Pairs<'a> {
    trials: Trials<'a>,
    classes: Vec<Class>,
    best: Ranked,
    place: usize,
}

impl<'a> Pairs<'a> {
    /// Looks at all pairs whose later block is that one.
    fn try_row(
        &mut self,
        alloc: Global,
        blocks: &[Sided],
        j: usize,
        work: &mut Work,
    ) -> Result<(), NoMemory> {
        let Some(later) = blocks.get(j) else {
            return Ok(());
        };
        for i in 0..j {
            if let Some(earlier) = blocks.get(i) {
                self.try_pair(alloc, earlier, later, work)?;
            }
        }
        Ok(())
    }

    /// Looks at a pair of blocks.
    fn try_pair(
        &mut self,
        alloc: Global,
        plus: &Sided,
        minus: &Sided,
        work: &mut Work,
    ) -> Result<(), NoMemory> {
        if !plus.is_apart(minus) || !work.take(plus.size()) {
            return Ok(());
        }
        plus.write_classes(minus, &mut self.classes)?;
        let bar = self.best.bar();
        let left = self.trials.left_below(alloc, &self.classes, bar)?;
        if let Some(left) = left {
            let classes = Vec::from_slice(alloc, &self.classes)?;
            self.best.add(Candidate {
                parent: self.place,
                left,
                classes,
            })?;
        }
        Ok(())
    }

    /// The best pairs, each with the least partition of its target where this leaves no more
    /// conflicts.
    fn lessened(self, alloc: Global, graph: &Proper) -> Result<Vec<Candidate>, NoMemory> {
        let Pairs {
            mut trials,
            best,
            ..
        } = self;
        let mut list = Vec::new(alloc);
        for candidate in best.into_list() {
            list.push(lessened(alloc, graph, &mut trials, candidate)?)?;
        }
        Ok(list)
    }
}

/// The insertion with the least partition of its target, where this leaves no more conflicts.
pub(crate) fn lessened(
    alloc: Global,
    graph: &Proper,
    trials: &mut Trials<'_>,
    candidate: Candidate,
) -> Result<Candidate, NoMemory> {
    let Some(least) = least_classes(alloc, graph.coded().graph(), &candidate.classes)? else {
        return Ok(candidate);
    };
    let bar = candidate.left.saturating_add(1);
    match trials.left_below(alloc, &least, bar)? {
        None => Ok(candidate),
        Some(left) => Ok(Candidate {
            parent: candidate.parent,
            left,
            classes: least,
        }),
    }
}
