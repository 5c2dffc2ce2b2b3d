//! The intervals and blocks of a small graph.

use crate::graphs::{PULSES, proper};
use si_base::ids::{Event, NoMemory, Sig, StateId};
use si_base::sets::StateSet;
use si_candidates::blocks::blocks;
use si_candidates::interval::interval;
use si_checks::proper::Proper;
use si_regions::regions::components;
use std::alloc::Global;
use std::process::Abort;
use std::test::Fail;

/// States are written with one digit each.
const DIGITS: &[u8] = b"0123456789";

/// Writes the states of a set, and a blank.
fn spell(text: &mut Vec<u8>, set: &StateSet) -> Result<(), NoMemory> {
    for s in 0..set.size() {
        if let Some(digit) = DIGITS.get(s as usize) {
            if set.has(StateId(s)) {
                text.push(*digit)?;
            }
        }
    }
    text.push(b' ')?;
    Ok(())
}

/// The blocks of a graph, in order.
fn spelled_blocks(alloc: Global, graph: &Proper) -> Result<Vec<u8>, NoMemory> {
    let components = components(alloc, graph.coded())?;
    let mut text = Vec::new(alloc);
    for set in &blocks(alloc, graph, &components)? {
        spell(&mut text, set)?;
    }
    Ok(text)
}

/// Says that the interval from the state 1 up to the event has these states.
fn expect_interval(
    rt: &impl Abort,
    alloc: Global,
    graph: &Proper,
    stop: Event,
    states: &[u8],
) -> Result<(), Fail> {
    let mut set = StateSet::new(alloc, graph.coded().graph().states())?;
    assert!(rt; 1 < set.size());
    set.add(StateId(1));
    let mut text = Vec::new(alloc);
    spell(&mut text, &interval(alloc, graph, &set, stop)?)?;
    assert_eq!(rt; text.as_slice(), states);
    Ok(())
}

#[test]
fn intervals_end_at_an_event(rt: HostRuntime) -> Result<(), Fail> {
    let alloc = rt.alloc();
    let graph = proper(alloc, PULSES)?;
    let sig = Sig(1);
    expect_interval(&rt, alloc, &graph, Event { sig, up: true }, b"12 ")?;
    expect_interval(&rt, alloc, &graph, Event { sig, up: false }, b"12345 ")
}

#[test]
fn blocks_in_order(rt: HostRuntime) -> Result<(), Fail> {
    let alloc = rt.alloc();
    let text = spelled_blocks(alloc, &proper(alloc, PULSES)?)?;
    let order = b"0 3 1 4 2 5 12 12345 01245 45 2345 0125 012345 345 012 ".as_slice();
    assert_eq!(rt; text.as_slice(), order);
    Ok(())
}
