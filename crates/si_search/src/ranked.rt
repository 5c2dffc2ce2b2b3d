//! The insertions that leave the fewest conflicts.

ghost use Rattle.std.specs.Prelude.{◌≤◌};
ghost use Rattle.std.specs.Vec.{vec_len};

use si_base::ids::NoMemory;
use si_insert::partition::Class;
use std::alloc::Global;

/// An insertion by the classes of the states of a graph, which has a place in a list, and the
/// number of conflicts that it leaves.
#[derive(Drop)]
pub(crate) struct Candidate {
    pub(crate) parent: usize,
    pub(crate) left: u64,
    pub(crate) classes: Vec<Class>,
}

/// So many insertions that leave the fewest conflicts, those with fewer first, and the earlier ones
/// first among equals.
#[derive(Drop)]
pub(crate) struct Ranked {
    limit: usize,
    list: Vec<Candidate>,
}

impl Ranked {
    /// None yet, of so many.
    pub(crate) fn none(alloc: Global, limit: usize) -> Ranked {
        Ranked {
            limit,
            list: Vec::new(alloc),
        }
    }

    /// The number of conflicts that a further insertion has to get below.
    pub(crate) fn bar(&self) -> u64 {
        if self.list.len() < self.limit {
            return u64::MAX;
        }
        match self.list.last() {
            Some(worst) => worst.left,
            None => 0,
        }
    }

    /// The number of conflicts that the best insertion leaves.
    pub(crate) fn fewest(&self) -> u64 {
        match self.list.first() {
            Some(best) => best.left,
            None => u64::MAX,
        }
    }

    /// Adds an insertion, and drops the last one where there are too many.
    pub(crate) fn add(&mut self, candidate: Candidate) -> Result<(), NoMemory> {
        let place = self.place_for(candidate.left);
        self.list.insert(place, candidate)?;
        if self.list.len() > self.limit {
            let _ = self.list.pop();
        }
        Ok(())
    }

    /// The place behind all that leave no more than so many conflicts.
    fn place_for(&self, left: u64) -> usize
        ensures { result ≤ vec_len self.now.list }
    {
        for k in 0..self.list.len() {
            if left < self.list[k].left {
                return k;
            }
        }
        self.list.len()
    }

    /// The insertions so far, in their order.
    pub(crate) fn list(&self) -> &[Candidate] {
        self.list.as_slice()
    }

    /// The insertions, in their order.
    pub(crate) fn into_list(self) -> Vec<Candidate> {
        let Ranked { list, .. } = self;
        list
    }
}
