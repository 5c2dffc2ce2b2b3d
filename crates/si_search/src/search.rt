//! The searches for a graph, by its size.

use crate::beam::{Reach, find_chains};
use crate::chain::Chain;
use crate::greedy::least_by_rule;
use si_base::ids::NoMemory;
use si_checks::proper::Proper;
use si_conflicts::conflicts::count;
use std::alloc::Global;

/// The chains that a search found, and how many candidates it tried.
#[derive(Drop)]
pub struct Found {
    pub chains: Vec<Chain>,
    pub tried: u64,
}

impl Found {
    /// No chain, and nothing tried.
    fn nothing(alloc: Global) -> Found {
        Found {
            chains: Vec::new(alloc),
            tried: 0,
        }
    }
}

/// A graph with more states is searched by the rule alone.
const MAX_SEARCHED: u32 = 10_000;

/// In a graph with more states no targets are grown.
const MAX_GROWN: u32 = 300;

/// How many graphs a search by targets keeps.
const WIDTH_OF_TARGETS: usize = 8;

/// How many graphs a search keeps, by the number of states.
fn width_for(states: u32) -> usize {
    if states <= 1000 { 20 } else { 5 }
}

/// How much a search may do, by the number of states.
fn work_for(states: u32) -> u64 {
    50_000_000 + states as u64 * 1_000_000
}

/// Insertions that may leave no conflict in the graph: those of the rule, each with the least
/// partition, and those of the searches; none where it has no conflict.
///
/// Nothing is promised of them. Limits are counts and never seconds, so that the answer is a
/// function of the graph.
///
/// # Errors
///
/// `NoMemory` only where memory runs out.
pub fn chains_for(alloc: Global, given: &Proper) -> Result<Found, NoMemory> {
    if count(alloc, given.coded())? == 0 {
        return Ok(Found::nothing(alloc));
    }
    let mut chains = Vec::new(alloc);
    if let Some(chain) = least_by_rule(alloc, given)? {
        chains.push(chain)?;
    }
    let mut found = searched(alloc, given, chains.len() > 0)?;
    chains.append(&mut found.chains)?;
    Ok(Found {
        chains,
        tried: found.tried,
    })
}

/// What a search by pairs of blocks finds; or where that is nothing, and nothing else is known,
/// one by targets too.
fn searched(alloc: Global, given: &Proper, is_resolved: bool) -> Result<Found, NoMemory> {
    let states = given.coded().graph().states();
    if states > MAX_SEARCHED {
        return Ok(Found::nothing(alloc));
    }
    let (width, work) = (width_for(states), work_for(states));
    let pairs = find_chains(alloc, given, Reach::Pairs, width, work)?;
    if is_resolved || pairs.chains.len() > 0 || states > MAX_GROWN {
        return Ok(pairs);
    }
    let targets = find_chains(alloc, given, Reach::Targets, WIDTH_OF_TARGETS, work)?;
    Ok(Found {
        chains: targets.chains,
        tried: pairs.tried.saturating_add(targets.tried),
    })
}
