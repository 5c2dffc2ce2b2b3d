//! Where a new signal may switch: all blocks in one pass over the arcs.

ghost use Rattle.std.specs.Prelude.{◌≡◌, ℕ, ◌<◌, ◌↔◌, ◌⊎◌, IfOk, All, false};
ghost use Rattle.std.specs.Prelude.{Contains, length};
ghost use Rattle.si_base.specs.Graph.{IsGraph};
ghost use Rattle.si_base.specs.Sets.{IsIn};
ghost use Rattle.si_base.specs.Codes.{IsDeterministic};
ghost use Rattle.si_closures.specs.Loops.WordSearch.{HasBit};
ghost use Rattle.si_candidates.specs.Blocking.{MaySwitch, MayPass, MayLeave};
ghost use Rattle.si_candidates.specs.Loops.Earlier.{AreEarlier};
ghost use Rattle.si_candidates.specs.Loops.ManySets.{AreAllTold, ArePacked, AreAllPacked};
ghost use Rattle.si_candidates.specs.Loops.ManySets.{Tells, TellsOf, EachTells, EachTellsOf};

use crate::block::Block;
use crate::earlier::{EarlierStep, add_steps};
use si_base::graph::Edge;
use si_base::ids::{NoMemory, StateId};
use si_base::sets::StateSet;
use si_checks::proper::Proper;
use si_closures::words::{SETS, has_bit};
use si_graph::graph::Graph;
use std::alloc::Global;
use std::marker::Model;

/// The words of 128 blocks at most: bit k of a state's word says whether block k of them has the
/// state.
#[derive(Drop)]
struct BlockWords {
    words: Vec<u128>,
}

impl Model for BlockWords {
    ghost use Rattle.std.specs.Prelude.{ℕ, List};

    ghost Value = { List ℕ };

    ghost view = { λ b. b.words.items };
}

impl BlockWords {
    /// A word for each state.
    fn words(&self) -> &[u128]
        ensures { result.now ≡ self.now }
    {
        self.words.as_slice()
    }
}

/// For each block whether a new signal may switch in it: no input leads out of it, and what leads
/// out of it and was enabled before led out of it then too. It fails only where memory runs out.
///
/// It takes one pass over the arcs for all blocks. The earlier steps of an arc are looked up once,
/// and only where it leads out of a block that is still in question.
pub fn which_may_switch(
    alloc: Global,
    graph: &Proper,
    blocks: &[Block],
) -> Result<Vec<bool>, NoMemory>
    requires { All (λ b. length b ≡ graph.now.graph.states) blocks.now }
    ensures { IfOk result (λ may. AreAllTold graph.now.graph blocks.now may.items) }
{
    let g = graph.coded().graph();
    let lists = packed_blocks(alloc, g.states(), blocks)?;
    let sets = which_sets_may_switch(alloc, g, lists.as_slice())?;
    let mut may = Vec::new(alloc);
    for k in 0..blocks.len() {
        may.push(has_bit(sets[k / SETS], (k % SETS) as u32))?;
    }
    Ok(may)
}

/// The words of all blocks, of 128 after 128.
fn packed_blocks(alloc: Global, states: u32, blocks: &[Block]) -> Result<Vec<BlockWords>, NoMemory>
    requires { All (λ b. length b ≡ states) blocks.now }
    ensures { IfOk result (λ lists. AreAllPacked states blocks.now lists.items) }
{
    let mut lists = Vec::new(alloc);
    for b in 0..blocks.len().div_ceil(SETS) {
        let words = block_words(alloc, states, blocks, b * SETS)?;
        lists.push(BlockWords { words })?;
    }
    Ok(lists)
}

/// The words of the blocks from that place on, of which there are 128 at most: bit k of a state's
/// word says whether the block that stands k places on has the state.
pub(crate) fn block_words(
    alloc: Global,
    states: u32,
    blocks: &[Block],
    first: usize,
) -> Result<Vec<u128>, NoMemory>
    requires sizes { All (λ b. length b ≡ states) blocks.now }
    requires within { first < length blocks.now }
    ensures { IfOk result (λ words. ArePacked states blocks.now first 128 words.items) }
{
    let mut words = vec![in alloc; 0; states as usize]?;
    let count = (blocks.len() - first).min(SETS);
    for k in 0..count {
        put_set(words.as_mut_slice(), k as u32, blocks[first + k].set());
    }
    Ok(words)
}

/// Gives each state of the set the bit. It goes from one state of the set to the next.
fn put_set(words: &mut [u128], k: u32, set: &StateSet)
    requires few { k < 128 }
    requires size { length words.old ≡ length set.now }
    ensures size { length words.new ≡ length words.old }
    ensures each { (j s : ℕ) → HasBit words.new j s
        ↔ (HasBit words.old j s ⊎ ((j ≡ k) × IsIn set.now s)) }
{
    // A size is a u32, so that the place past each state fits, too.
    let _size = set.size();
    let mut at = StateId(0);
    while let Some(s) = set.first_from(at) {
        words[s.0 as usize] |= 1 << k;
        at = StateId(s.0 + 1);
    }
}

/// For each list of words those of its sets in which a new signal may switch. It fails only where
/// memory runs out.
fn which_sets_may_switch(
    alloc: Global,
    graph: &Graph,
    lists: &[BlockWords],
) -> Result<Vec<u128>, NoMemory>
    requires deterministic { IsDeterministic graph.now }
    requires sizes { All (λ words. length words ≡ graph.now.states) lists.now }
    ensures { IfOk result
        (λ may. EachTells (λ set. MaySwitch graph.now (IsIn set)) lists.now may.items) }
{
    let mut may = vec![in alloc; u128::MAX; lists.len()]?;
    let mut earlier = Vec::new(alloc);
    for arc in graph.arcs() {
        if !leads_out(lists, may.as_slice(), arc) {
            continue;
        }
        earlier.clear();
        add_steps(graph, arc, &mut earlier)?;
        keep_passed(graph, lists, arc, earlier.as_slice(), may.as_mut_slice());
    }
    Ok(may)
}

/// Whether the arc leads out of one of the given sets.
fn leads_out(lists: &[BlockWords], given: &[u128], arc: &Edge) -> bool
    requires count { length given.now ≡ length lists.now }
    requires within { All (λ words. (arc.now.from < length words) × (arc.now.to < length words))
        lists.now }
    ensures { (result ≡ false) ↔ EachTellsOf given.now
        (λ set. IsIn set arc.now.from → IsIn set arc.now.to) lists.now given.now }
{
    for b in 0..lists.len() {
        if those_that_stay(lists[b].words(), given[b], arc) != given[b] {
            return true;
        }
    }
    false
}

/// Keeps of the sets those out of which the arc doesn't lead, or may lead.
fn keep_passed(
    graph: &Graph,
    lists: &[BlockWords],
    arc: &Edge,
    earlier: &[EarlierStep],
    may: &mut [u128],
)
    requires graph { IsGraph graph.now }
    requires count { length may.old ≡ length lists.now }
    requires sizes { All (λ words. length words ≡ graph.now.states) lists.now }
    requires there { Contains graph.now.edges arc.now }
    requires earlier { AreEarlier graph.now arc.now earlier.now }
    ensures { EachTellsOf may.old
        (λ set. IsIn set arc.now.from → MayPass graph.now (IsIn set) arc.now) lists.now may.new }
{
    for b in 0..lists.len() {
        may[b] = those_that_pass(graph, lists[b].words(), may[b], arc, earlier);
    }
}

/// Those of the given sets out of which the arc doesn't lead, or may lead.
fn those_that_pass(
    graph: &Graph,
    words: &[u128],
    given: u128,
    arc: &Edge,
    earlier: &[EarlierStep],
) -> u128
    requires graph { IsGraph graph.now }
    requires size { length words.now ≡ graph.now.states }
    requires there { Contains graph.now.edges arc.now }
    requires earlier { AreEarlier graph.now arc.now earlier.now }
    ensures { TellsOf given words.now
        (λ set. IsIn set arc.now.from → MayPass graph.now (IsIn set) arc.now) result }
{
    let stays = those_that_stay(words, given, arc);
    if stays == given {
        return given;
    }
    stays | given & those_to_leave(graph, words, arc, earlier)
}

/// Those of the given sets out of which the arc doesn't lead.
fn those_that_stay(words: &[u128], given: u128, arc: &Edge) -> u128
    requires from { arc.now.from < length words.now }
    requires to { arc.now.to < length words.now }
    ensures { TellsOf given words.now (λ set. IsIn set arc.now.from → IsIn set arc.now.to) result }
{
    given & (!words[arc.from.0 as usize] | words[arc.to.0 as usize])
}

/// The sets out of which the arc may lead, by its earlier steps.
fn those_to_leave(graph: &Graph, words: &[u128], arc: &Edge, earlier: &[EarlierStep]) -> u128
    requires graph { IsGraph graph.now }
    requires size { length words.now ≡ graph.now.states }
    requires there { Contains graph.now.edges arc.now }
    requires earlier { AreEarlier graph.now arc.now earlier.now }
    ensures { Tells words.now (λ set. MayLeave graph.now (IsIn set) arc.now) result }
{
    if !graph.is_driven(arc.event.sig) {
        return 0;
    }
    let mut kept = u128::MAX;
    for step in earlier {
        kept &= words[step.from.0 as usize] & !words[step.to.0 as usize];
    }
    kept
}
