//! The blocks of a graph: sets of states in which a new signal may switch.

ghost use Rattle.std.specs.Prelude.{◌≡◌, ◌≤◌, ◌<◌, [], IfOk, OnOk, All, length, map};
ghost use Rattle.std.specs.List.{list_any};
ghost use Rattle.si_base.specs.Graph.{IsGraph};
ghost use Rattle.si_base.specs.Limits.{max_signals};
ghost use Rattle.si_regions.specs.Regions.{AreComponents};
ghost use Rattle.si_candidates.specs.Loops.Adding.{with_block, with_blocks, AddsAsked, AddsFirst};
ghost use Rattle.si_candidates.specs.Loops.Adding.{AddsIntervals};
ghost use Rattle.si_candidates.specs.Loops.Asked.{asked_for, asks_from, AreReady};
ghost use Rattle.si_candidates.specs.Blocks.{AreBlocks, driven_events, state_set, same_set};

use crate::block::Block;
use crate::intervals::Asked;
use si_base::graph::Signal;
use si_base::ids::{Event, NoMemory, Sig, StateId};
use si_base::sets::StateSet;
use si_checks::proper::Proper;
use si_closures::columns::sets_of_words;
use si_regions::regions::Component;
use std::alloc::Global;

/// The most blocks of a graph.
const MAX_BLOCKS: usize = 1024;

/// The blocks of the graph, of which these are the regions without their quiescent parts: the
/// excitation regions, the switching regions, then for each region and each event that the circuit
/// drives the interval from the switching region up to the event. Each set stands once, and of
/// these the first 1,024. It fails only where memory runs out.
pub fn blocks(
    alloc: Global,
    graph: &Proper,
    components: &Vec<Component>,
) -> Result<Vec<StateSet>, NoMemory>
    requires { AreComponents graph.now components.now.items }
    ensures { IfOk result (λ blocks. AreBlocks graph.now blocks.items) }
{
    let mut found: Vec<Block> = Vec::new(alloc);
    add_excited(alloc, graph, components.as_slice(), &mut found)?;
    add_switched(alloc, graph, components.as_slice(), &mut found)?;
    add_intervals(alloc, graph, components.as_slice(), &mut found)?;
    let sets = sets_of(alloc, found)?;
    Ok(sets)
}

/// Adds the excitation regions.
fn add_excited(
    alloc: Global,
    graph: &Proper,
    components: &[Component],
    found: &mut Vec<Block>,
) -> Result<(), NoMemory>
    requires { AreComponents graph.now components.now }
    ensures { OnOk result (found.new.items ≡ with_blocks found.old.items
        (map (λ x. state_set graph.now.graph.states x.er) components.now)) }
{
    let g = graph.coded().graph();
    for component in components {
        add_states(alloc, g.states(), component.er.as_slice(), found)?;
    }
    Ok(())
}

/// Adds the switching regions.
fn add_switched(
    alloc: Global,
    graph: &Proper,
    components: &[Component],
    found: &mut Vec<Block>,
) -> Result<(), NoMemory>
    requires { AreComponents graph.now components.now }
    ensures { OnOk result (found.new.items ≡ with_blocks found.old.items
        (map (λ x. state_set graph.now.graph.states x.sr) components.now)) }
{
    let g = graph.coded().graph();
    for component in components {
        add_states(alloc, g.states(), component.sr.as_slice(), found)?;
    }
    Ok(())
}

/// Adds the intervals from each switching region up to each event that the circuit drives.
fn add_intervals(
    alloc: Global,
    graph: &Proper,
    components: &[Component],
    found: &mut Vec<Block>,
) -> Result<(), NoMemory>
    requires { AreComponents graph.now components.now }
    ensures { OnOk result (AddsIntervals graph.now.graph
        (driven_events 0 graph.now.graph.signals) components.now found.old.items found.new.items) }
{
    let g = graph.coded().graph();
    let stops = circuit_events(alloc, g.signals())?;
    let mut asked = Asked::new(alloc, g.states())?;
    for component in components {
        ask(
            alloc,
            graph,
            component.sr.as_slice(),
            stops.as_slice(),
            &mut asked,
            found,
        )?;
    }
    add_asked(alloc, graph, &asked, found)?;
    Ok(())
}

/// Asks for the intervals from these states up to each of the events, and adds those that are asked
/// for whenever there are 128 of them.
fn ask(
    alloc: Global,
    graph: &Proper,
    from: &[StateId],
    stops: &[Event],
    asked: &mut Asked,
    found: &mut Vec<Block>,
) -> Result<(), NoMemory>
    requires graph { IsGraph graph.now.graph }
    requires from { All (λ s. s < graph.now.graph.states) from.now }
    requires stops { All (λ e. e.sig < length graph.now.graph.signals) stops.now }
    requires ready { AreReady graph.now.graph.states asked.old.seeds.items asked.old.stops.items }
    requires within { All (λ e. e.sig < length graph.now.graph.signals) asked.old.stops.items }
    ensures ready { OnOk result
        (AreReady graph.now.graph.states asked.new.seeds.items asked.new.stops.items) }
    ensures within { OnOk result
        (All (λ e. e.sig < length graph.now.graph.signals) asked.new.stops.items) }
    ensures adds { OnOk result (AddsFirst graph.now.graph
        (asks_from (state_set graph.now.graph.states from.now) stops.now)
        (asked_for asked.old.seeds.items asked.old.stops.items) found.old.items
        (asked_for asked.new.seeds.items asked.new.stops.items) found.new.items) }
{
    let mut at = 0;
    while at < stops.len() {
        make_room(alloc, graph, asked, found)?;
        let (_, rest) = stops.split_at(at);
        let count = asked.room().min(rest.len());
        let (next, _) = rest.split_at(count);
        asked.add(from, next)?;
        at += count;
    }
    Ok(())
}

/// Adds the intervals that are asked for, if no more can be asked for. None is asked for then.
fn make_room(
    alloc: Global,
    graph: &Proper,
    asked: &mut Asked,
    found: &mut Vec<Block>,
) -> Result<(), NoMemory>
    requires graph { IsGraph graph.now.graph }
    requires ready { AreReady graph.now.graph.states asked.old.seeds.items asked.old.stops.items }
    requires within { All (λ e. e.sig < length graph.now.graph.signals) asked.old.stops.items }
    ensures room { OnOk result (length asked.new.stops.items < 128) }
    ensures ready { OnOk result
        (AreReady graph.now.graph.states asked.new.seeds.items asked.new.stops.items) }
    ensures within { OnOk result
        (All (λ e. e.sig < length graph.now.graph.signals) asked.new.stops.items) }
    ensures adds { OnOk result (AddsFirst graph.now.graph []
        (asked_for asked.old.seeds.items asked.old.stops.items) found.old.items
        (asked_for asked.new.seeds.items asked.new.stops.items) found.new.items) }
{
    if asked.room() > 0 {
        return Ok(());
    }
    add_asked(alloc, graph, asked, found)?;
    asked.clear();
    Ok(())
}

/// Adds the intervals that are asked for.
fn add_asked(
    alloc: Global,
    graph: &Proper,
    asked: &Asked,
    found: &mut Vec<Block>,
) -> Result<(), NoMemory>
    requires graph { IsGraph graph.now.graph }
    requires size { length asked.now.seeds.items ≡ graph.now.graph.states }
    requires few { length asked.now.stops.items ≤ 128 }
    requires within { All (λ e. e.sig < length graph.now.graph.signals) asked.now.stops.items }
    ensures { OnOk result (AddsAsked graph.now.graph
        (asked_for asked.now.seeds.items asked.now.stops.items) found.old.items found.new.items) }
{
    if found.len() >= MAX_BLOCKS {
        return Ok(());
    }
    let words = asked.intervals(alloc, graph)?;
    let states = graph.coded().graph().states();
    let sets = sets_of_words(alloc, &words, states, asked.stops.len())?;
    add_sets(sets, found)?;
    Ok(())
}

/// Adds the sets, one after another.
fn add_sets(sets: Vec<StateSet>, found: &mut Vec<Block>) -> Result<(), NoMemory>
    ensures { OnOk result (found.new.items ≡ with_blocks found.old.items sets.items) }
{
    for set in sets {
        add_block(set, found)?;
    }
    Ok(())
}

/// Adds the set of these states.
fn add_states(
    alloc: Global,
    size: u32,
    states: &[StateId],
    found: &mut Vec<Block>,
) -> Result<(), NoMemory>
    requires { All (λ s. s < size) states.now }
    ensures { OnOk result
        (found.new.items ≡ with_block found.old.items (state_set size states.now)) }
{
    if found.len() >= MAX_BLOCKS {
        return Ok(());
    }
    let set = marked_set(alloc, size, states)?;
    add_block(set, found)?;
    Ok(())
}

/// Puts a set last, unless it stands already or enough sets stand.
fn add_block(set: StateSet, found: &mut Vec<Block>) -> Result<(), NoMemory>
    ensures { OnOk result (found.new.items ≡ with_block found.old.items set) }
{
    if found.len() >= MAX_BLOCKS {
        return Ok(());
    }
    let block = Block::from_set(set);
    if is_among(found.as_slice(), &block) {
        return Ok(());
    }
    found.push(block)?;
    Ok(())
}

/// Whether the set is among these.
fn is_among(sets: &[Block], set: &Block) -> bool
    ensures { result ≡ list_any (same_set set.now) sets.now }
{
    for x in sets {
        if set.is_same(x) {
            return true;
        }
    }
    false
}

/// The sets alone.
fn sets_of(alloc: Global, found: Vec<Block>) -> Result<Vec<StateSet>, NoMemory>
    ensures { IfOk result (λ sets. sets.items ≡ found.items) }
{
    let mut sets: Vec<StateSet> = Vec::new(alloc);
    for block in found {
        sets.push(block.into_set())?;
    }
    Ok(sets)
}

/// The set of these states, among so many.
fn marked_set(alloc: Global, size: u32, states: &[StateId]) -> Result<StateSet, NoMemory>
    requires { All (λ s. s < size) states.now }
    ensures { IfOk result (λ set. set ≡ state_set size states.now) }
{
    let mut set = StateSet::new(alloc, size)?;
    for s in states {
        set.add(*s);
    }
    Ok(set)
}

/// The events of the signals that the circuit drives, in event order.
fn circuit_events(alloc: Global, signals: &[Signal]) -> Result<Vec<Event>, NoMemory>
    requires { length signals.now ≤ max_signals }
    ensures { IfOk result (λ events. events.items ≡ driven_events 0 signals.now) }
{
    let mut events: Vec<Event> = Vec::new(alloc);
    for z in 0..signals.len() {
        if signals[z].kind.is_driven() {
            let sig = Sig(z as u8);
            events.push(Event { sig, up: true })?;
            events.push(Event { sig, up: false })?;
        }
    }
    Ok(events)
}
