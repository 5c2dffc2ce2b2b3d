//! Targets: sets of states at which a new signal is to be 1. They grow from blocks and from the
//! values of signals by union, intersection and difference, where pairs of blocks don't suffice.

ghost use Rattle.std.specs.Prelude.{◌<◌};
ghost use Rattle.si_base.specs.Limits.{code_width};

use crate::flags::{Flags, Grown, Growth};
use crate::least::{has, is_wanted, least_classes};
use crate::ranked::{Candidate, Ranked};
use crate::sided::all_blocks;
use crate::trials::Trials;
use crate::work::Work;
use si_base::ids::{NoMemory, Sig, StateId};
use si_base::sets::StateSet;
use si_candidates::sides::class_by;
use si_checks::proper::Proper;
use si_conflicts::conflicts::{Pair, conflicts};
use si_insert::partition::Class;
use std::alloc::Global;
use std::collections::BTreeSet;

/// How often the best targets grow.
const MAX_ROUNDS: u32 = 3;

/// Of more sets than these no two are joined before the best targets grow.
const MAX_JOINED: usize = 80;

/// Of so many conflicts it is looked at whether a target parts them, before its partition is known.
const MAX_PARTED: u32 = 1000;

/// How many times as much work a target takes as a pair of blocks, whose classes are known.
const WORK_OF_TARGET: u64 = 8;

/// So many insertions into the graph that leave the fewest conflicts, by targets, as far as the
/// work goes. The graph has this place in a list. It fails only where memory runs out.
pub(crate) fn best_targets(
    alloc: Global,
    graph: &Proper,
    place: usize,
    limit: usize,
    work: &mut Work,
) -> Result<Vec<Candidate>, NoMemory> {
    let sets = first_sets(alloc, graph)?;
    let mut targets = Targets {
        graph,
        all: all_states(alloc, graph)?,
        trials: Trials::new(alloc, graph)?,
        conflicts: conflicts(alloc, graph.coded(), MAX_PARTED)?,
        seen: BTreeSet::new(alloc),
        best: Ranked::none(alloc, limit),
        place,
    };
    targets.begin(alloc, sets.as_slice(), work)?;
    for _ in 0..MAX_ROUNDS {
        targets.grow(alloc, sets.as_slice(), work)?;
    }
    let Targets { best, .. } = targets;
    Ok(best.into_list())
}

/// The states of the graph.
fn all_states(alloc: Global, graph: &Proper) -> Result<Flags, NoMemory> {
    let states = graph.coded().graph().states();
    let mut flags = Flags::none(alloc, states)?;
    for k in 0..states {
        flags.put(StateId(k));
    }
    Ok(flags)
}

/// The sets from which targets grow: the blocks, and of each signal the states where it is 1.
fn first_sets(alloc: Global, graph: &Proper) -> Result<Vec<Flags>, NoMemory> {
    let mut sets = Vec::new(alloc);
    for block in all_blocks(alloc, graph)? {
        sets.push(flags_of(alloc, graph, block.set())?)?;
    }
    let signals = graph.coded().graph().signals();
    for (z, _) in signals.iter().enumerate() {
        sets.push(ones_of(alloc, graph, Sig(z as u8))?)?;
    }
    Ok(sets)
}

/// The same set in words.
fn flags_of(alloc: Global, graph: &Proper, set: &StateSet) -> Result<Flags, NoMemory> {
    let states = graph.coded().graph().states();
    let mut flags = Flags::none(alloc, states)?;
    for k in 0..states {
        let s = StateId(k);
        if has(set, s) {
            flags.put(s);
        }
    }
    Ok(flags)
}

/// The states at which the signal is 1.
fn ones_of(alloc: Global, graph: &Proper, z: Sig) -> Result<Flags, NoMemory>
    requires { z < code_width }
{
    let coded = graph.coded();
    let mut flags = Flags::none(alloc, coded.graph().states())?;
    for k in 0..coded.graph().states() {
        let s = StateId(k);
        if coded.code(s).get(z) {
            flags.put(s);
        }
    }
    Ok(flags)
}

/// The best targets so far, the states and the first conflicts of the graph, and the marks of all
/// targets that were looked at.
#[derive(Drop)]
struct Targets<'a> {
    graph: &'a Proper,
    all: Flags,
    trials: Trials<'a>,
    conflicts: Vec<Pair>,
    seen: BTreeSet<u64>,
    best: Ranked,
    place: usize,
}

impl<'a> Targets<'a> {
    /// Looks at the sets themselves, and at what each two of them make, if they aren't many.
    fn begin(&mut self, alloc: Global, sets: &[Flags], work: &mut Work) -> Result<(), NoMemory> {
        for (place, set) in sets.iter().enumerate() {
            self.try_grown(alloc, set, Growth::Union, set, work)?;
            if sets.len() <= MAX_JOINED {
                self.join_one(alloc, set, place, sets, work)?;
            }
        }
        Ok(())
    }

    /// Looks at what the set at this place and each of the others make. Its unions and
    /// intersections with those before it were looked at with these.
    fn join_one(
        &mut self,
        alloc: Global,
        one: &Flags,
        place: usize,
        sets: &[Flags],
        work: &mut Work,
    ) -> Result<(), NoMemory> {
        for (k, other) in sets.iter().enumerate() {
            if k >= place {
                self.try_grown(alloc, one, Growth::Union, other, work)?;
                self.try_grown(alloc, one, Growth::Intersection, other, work)?;
            }
            self.try_grown(alloc, one, Growth::Difference, other, work)?;
        }
        Ok(())
    }

    /// Looks at what the best targets and the sets make.
    fn grow(&mut self, alloc: Global, sets: &[Flags], work: &mut Work) -> Result<(), NoMemory> {
        for target in self.best_sets(alloc)? {
            self.join_one(alloc, &target, 0, sets, work)?;
        }
        Ok(())
    }

    /// The best targets so far.
    fn best_sets(&self, alloc: Global) -> Result<Vec<Flags>, NoMemory> {
        let states = self.graph.coded().graph().states();
        let mut sets = Vec::new(alloc);
        for candidate in self.best.list() {
            sets.push(target_of(alloc, states, candidate.classes.as_slice())?)?;
        }
        Ok(sets)
    }

    /// Looks at a grown set.
    fn try_grown(
        &mut self,
        alloc: Global,
        one: &Flags,
        growth: Growth,
        other: &Flags,
        work: &mut Work,
    ) -> Result<(), NoMemory> {
        let grown = Grown { one, growth, other };
        let turn = grown.has(self.graph.coded().graph().start());
        if !self.seen.insert(grown.mark(&self.all, turn))? {
            return Ok(());
        }
        let set = grown.set(alloc)?;
        self.try_target(alloc, &set, turn, work)
    }

    /// Looks at the insertion of a signal that is to be 1 at the states of the set, or at all
    /// others where they are turned round.
    fn try_target(
        &mut self,
        alloc: Global,
        set: &Flags,
        turn: bool,
        work: &mut Work,
    ) -> Result<(), NoMemory> {
        let bar = self.best.bar();
        let amount = WORK_OF_TARGET * self.graph.coded().graph().states() as u64;
        if !self.parts_enough(set, bar) || !work.take(amount) {
            return Ok(());
        }
        let flat = self.flat_classes(alloc, set, turn)?;
        let Some(classes) = least_classes(alloc, self.graph.coded().graph(), flat.as_slice())?
        else {
            return Ok(());
        };
        if let Some(left) = self.trials.left_below(alloc, classes.as_slice(), bar)? {
            let parent = self.place;
            self.best.add(Candidate {
                parent,
                left,
                classes,
            })?;
        }
        Ok(())
    }

    /// Whether fewer of the first conflicts than the bar are between states at which the signal is
    /// to have one value: each of them stays.
    fn parts_enough(&self, set: &Flags, bar: u64) -> bool {
        let mut staying: u64 = 0;
        for pair in &self.conflicts {
            if set.has(pair.p) == set.has(pair.q) {
                staying = staying.saturating_add(1);
            }
            if staying >= bar {
                return false;
            }
        }
        staying < bar
    }

    /// The classes without a switching: the signal is 1 at the states of the set, or at all others
    /// where they are turned round.
    fn flat_classes(&self, alloc: Global, set: &Flags, turn: bool) -> Result<Vec<Class>, NoMemory> {
        let mut classes = Vec::new(alloc);
        for k in 0..self.graph.coded().graph().states() {
            classes.push(class_by(false, false, set.has(StateId(k)) != turn))?;
        }
        Ok(classes)
    }
}

/// The states at which a signal with these classes is to be 1.
fn target_of(alloc: Global, states: u32, classes: &[Class]) -> Result<Flags, NoMemory> {
    let mut flags = Flags::none(alloc, states)?;
    for k in 0..states {
        if let Some(class) = classes.get(k as usize) {
            if is_wanted(*class, true) {
                flags.put(StateId(k));
            }
        }
    }
    Ok(flags)
}
