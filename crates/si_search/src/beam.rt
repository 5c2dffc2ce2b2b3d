//! A search that keeps several graphs from round to round, whether or not conflicts get fewer.

use crate::chain::{Chain, grown};
use crate::pairs::best_pairs;
use crate::ranked::{Candidate, Ranked};
use crate::search::Found;
use crate::targets::best_targets;
use crate::work::Work;
use si_base::ids::{NoMemory, StateId};
use si_checks::proper::Proper;
use si_graph::coded::Coded;
use std::alloc::Global;

/// The most signals that a search inserts.
const MAX_ROUNDS: u32 = 24;

/// After so many rounds in which no graph has fewer conflicts than one before a search ends.
const MAX_IDLE: u32 = 4;

/// Which insertions a search looks at.
#[derive(Clone, Copy)]
pub(crate) enum Reach {
    /// Those of pairs of blocks.
    Pairs,
    /// Those, and those of targets that grow from blocks.
    Targets,
}

/// A graph with the insertions that made it.
#[derive(Drop)]
struct Item {
    graph: Proper,
    chain: Chain,
}

/// The graphs of a round, the insertions found that leave no conflict, the marks of all graphs that
/// were looked at, how many graphs are kept, what is left of the work, the fewest conflicts of a
/// graph so far, and for how many rounds no graph had fewer.
#[derive(Drop)]
struct Beam {
    reach: Reach,
    items: Vec<Item>,
    found: Vec<Chain>,
    seen: Vec<u64>,
    width: usize,
    work: Work,
    fewest: u64,
    idle: u32,
}

/// Insertions that leave no conflict in the graph, each chain as short as the shortest that was
/// found, or longer by one. It fails only where memory runs out.
pub(crate) fn find_chains(
    alloc: Global,
    given: &Proper,
    reach: Reach,
    width: usize,
    work: u64,
) -> Result<Found, NoMemory> {
    let mut beam = Beam::new(alloc, given, reach, width, work)?;
    for _ in 0..MAX_ROUNDS {
        let is_last = beam.found.len() > 0;
        beam.round(alloc)?;
        if is_last || beam.items.len() == 0 || beam.work.is_done() || beam.idle > MAX_IDLE {
            break;
        }
    }
    let Beam { found, work, .. } = beam;
    Ok(Found {
        chains: found,
        tried: work.tried(),
    })
}

impl Beam {
    /// The graph alone.
    fn new(
        alloc: Global,
        given: &Proper,
        reach: Reach,
        width: usize,
        work: u64,
    ) -> Result<Beam, NoMemory> {
        let mut items = Vec::new(alloc);
        items.push(Item {
            graph: given.copy(alloc)?,
            chain: Chain::none(alloc),
        })?;
        Ok(Beam {
            reach,
            items,
            found: Vec::new(alloc),
            seen: Vec::new(alloc),
            width,
            work: Work::of(work),
            fewest: u64::MAX,
            idle: 0,
        })
    }

    /// Replaces the graphs by the best that have one more signal.
    fn round(&mut self, alloc: Global) -> Result<(), NoMemory> {
        let mut best = Ranked::none(alloc, self.width.saturating_mul(self.width));
        for k in 0..self.items.len() {
            self.expand(alloc, k, &mut best)?;
        }
        self.note(best.fewest());
        self.items = self.next_items(alloc, best)?;
        Ok(())
    }

    /// Notes how many conflicts the best insertion of a round leaves.
    fn note(&mut self, left: u64) {
        if left < self.fewest {
            self.fewest = left;
            self.idle = 0;
        } else {
            self.idle = self.idle.saturating_add(1);
        }
    }

    /// Finds the best insertions into the graph at that place.
    fn expand(&mut self, alloc: Global, k: usize, best: &mut Ranked) -> Result<(), NoMemory> {
        let Some(item) = self.items.get(k) else {
            return Ok(());
        };
        let list = candidates(
            alloc,
            self.reach,
            &item.graph,
            k,
            self.width,
            &mut self.work,
        )?;
        for candidate in list {
            if candidate.left == 0 {
                self.found.push(item.chain.and(alloc, &candidate.classes)?)?;
            } else {
                best.add(candidate)?;
            }
        }
        Ok(())
    }

    /// The graphs that the best insertions make, without those that were seen before.
    fn next_items(&mut self, alloc: Global, best: Ranked) -> Result<Vec<Item>, NoMemory> {
        let mut next = Vec::new(alloc);
        for candidate in best.into_list() {
            if next.len() < self.width {
                self.add_item(alloc, &candidate, &mut next)?;
            }
        }
        Ok(next)
    }

    /// Adds the graph that an insertion makes, unless it was seen before.
    fn add_item(
        &mut self,
        alloc: Global,
        candidate: &Candidate,
        next: &mut Vec<Item>,
    ) -> Result<(), NoMemory> {
        let Some(parent) = self.items.get(candidate.parent) else {
            return Ok(());
        };
        let Some(graph) = grown(alloc, &parent.graph, &candidate.classes)? else {
            return Ok(());
        };
        let mark = mark_of(graph.coded());
        if self.seen.contains(&mark) {
            return Ok(());
        }
        let chain = parent.chain.and(alloc, &candidate.classes)?;
        self.seen.push(mark)?;
        next.push(Item { graph, chain })?;
        Ok(())
    }
}

/// So many of the best insertions of each kind into the graph, which has this place in a list.
fn candidates(
    alloc: Global,
    reach: Reach,
    graph: &Proper,
    place: usize,
    limit: usize,
    work: &mut Work,
) -> Result<Vec<Candidate>, NoMemory> {
    let mut list = best_pairs(alloc, graph, place, limit, work)?;
    if matches!(reach, Reach::Targets) {
        let mut grown = best_targets(alloc, graph, place, limit, work)?;
        list.append(&mut grown)?;
    }
    Ok(list)
}

/// A number by which graphs are told apart: of graphs with one number the later ones are left out.
fn mark_of(coded: &Coded) -> u64 {
    let mut mark: u64 = 0;
    for k in 0..coded.graph().states() {
        mark = mixed(mark, coded.code(StateId(k)).0);
    }
    mark
}

/// The number with a code mixed in.
fn mixed(mark: u64, code: u128) -> u64 {
    let low = (code & 0xFFFF_FFFF_FFFF_FFFF) as u64;
    let high = (code >> 64) as u64;
    let next = (mark ^ low ^ high).wrapping_mul(0x9E37_79B9_7F4A_7C15);
    next ^ (next >> 29)
}
