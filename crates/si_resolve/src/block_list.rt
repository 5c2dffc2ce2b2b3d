//! The blocks of a graph, and in which of them a new signal may switch.

ghost use Rattle.std.specs.Prelude.{◌≡◌, ℕ, ◌<◌, ◌↔◌, true, false, IfOk, IsTrue, All, length, map};
ghost use Rattle.std.specs.List.{slice_index_or};
ghost use Rattle.si_base.specs.Limits.{max_signals};
ghost use Rattle.si_candidates.specs.Blocks.{AreBlocks, block_at};
ghost use Rattle.si_candidates.specs.Loops.Sides.{AreSides};
ghost use Rattle.si_candidates.specs.Loops.Tree.{IsTree};
ghost use Rattle.si_conflicts.specs.Loops.Chains.{AreChains};
ghost use Rattle.si_conflicts.specs.Conflicts.{pairs_of};
ghost use Rattle.si_resolve.specs.Loops.Aspects.{AreWithin, HaveAspects, aspect_of};
ghost use Rattle.si_resolve.specs.Loops.Sharing.{HaveCrowds, ShareCrowd};
ghost use Rattle.si_resolve.specs.Loops.Usable.{AreUsable, AreSearched, HaveSides};
ghost use Rattle.si_base.specs.Sets.{IsIn};

use crate::aspects::Column;
use si_base::ids::{NoMemory, StateId};
use si_base::sets::StateSet;
use si_candidates::block::Block;
use si_candidates::blocks::blocks;
use si_candidates::may_switch::which_may_switch;
use si_candidates::sides::sides;
use si_candidates::tree::{Link, tree};
use si_checks::proper::Proper;
use si_conflicts::chains::CodeChains;
use si_conflicts::conflicts::{Pair, conflicts as first_conflicts};
use si_conflicts::crowds::{Crowd, crowd_in};
use si_regions::regions::components;
use std::alloc::Global;

/// The blocks of a graph, and for each whether it has a state and a new signal may switch in it: no
/// other block is in an accepted candidate. Beside each that is so usable the sides of the states,
/// and how it lies to the first conflicts. Beside each block a crowd with a state in it, if one has
/// as many states as the graph has conflicts.
#[derive(Drop)]
pub(crate) struct BlockList {
    pub(crate) blocks: Vec<Block>,
    pub(crate) usable: Vec<bool>,
    pub(crate) sides: Vec<StateSet>,
    pub(crate) columns: Vec<Column>,
    pub(crate) crowds: Vec<Option<Crowd>>,
}

/// How many conflicts are compared with each candidate before anything else is done for it.
const MAX_COMPARED: u32 = 32_768;

impl BlockList {
    ghost use Rattle.si_resolve.specs.Loops.Aspects as of_aspects;
    ghost use Rattle.si_resolve.specs.Loops.Aspects.{column_at};
    ghost use Rattle.si_resolve.specs.Loops.Sharing.{crowd_at};

    /// The block at that place.
    pub(crate) fn block(&self, k: usize) -> &Block
        requires { k < length self.now.blocks.items }
        ensures { result.now ≡ block_at self.now.blocks.items k }
    {
        &self.blocks[k]
    }

    /// The sides of the block at that place, if it is usable.
    pub(crate) fn sides(&self, k: usize) -> &StateSet
        requires { k < length self.now.sides.items }
        ensures { result.now ≡ block_at self.now.sides.items k }
    {
        &self.sides[k]
    }

    /// Whether the first conflicts that the two blocks don't part are fewer than `bar`, if both are
    /// usable.
    pub(crate) fn leaves_below(&self, i: usize, j: usize, bar: u64) -> bool
        requires i { i < length self.now.columns.items }
        requires j { j < length self.now.columns.items }
        requires count { length (column_at self.now.columns.items j)
            ≡ length (column_at self.now.columns.items i) }
        ensures { IsTrue result ↔ (of_aspects.unparted_count (column_at self.now.columns.items i)
            (column_at self.now.columns.items j) < bar) }
    {
        self.columns[i].leaves_below(&self.columns[j], bar)
    }

    /// Whether both blocks have states of one crowd, and this has at least `bar` states: so many
    /// conflicts stay, whatever else the new signal does.
    pub(crate) fn share_crowd(&self, i: usize, j: usize, bar: u64) -> bool
        requires i { i < length self.now.crowds.items }
        requires j { j < length self.now.crowds.items }
        ensures { IsTrue result ↔ ShareCrowd (crowd_at self.now.crowds.items i)
            (crowd_at self.now.crowds.items j) bar }
    {
        are_shared(self.crowds[i], self.crowds[j], bar)
    }

    /// Whether the block at that place has a state and a new signal may switch in it.
    pub(crate) fn is_usable(&self, k: usize) -> bool
        requires { k < length self.now.usable.items }
        ensures { result ≡ slice_index_or self.now.usable.items k false }
    {
        self.usable[k]
    }
}

/// Whether the crowds of two blocks are one, of at least `bar` states.
fn are_shared(one: Option<Crowd>, other: Option<Crowd>, bar: u64) -> bool
    ensures { IsTrue result ↔ ShareCrowd one other bar }
{
    match (one, other) {
        (Some(x), Some(y)) => x.code == y.code && x.states as u64 >= bar,
        _ => false,
    }
}

/// The blocks of the graph, which has so many conflicts, each tested once.
pub(crate) fn block_list(
    alloc: Global,
    graph: &Proper,
    chains: &CodeChains,
    conflicts: u64,
) -> Result<BlockList, NoMemory>
    requires few { length graph.now.graph.signals < max_signals }
    requires chains { AreChains graph.now chains.now }
    ensures { IfOk result (AreSearched graph.now) }
{
    // What holds of each proper graph comes with its coded graph.
    let _graph = graph.coded().graph();
    let blocks = all_blocks(alloc, graph)?;
    let usable = usable_ones(alloc, graph, &blocks)?;
    let tree = tree(alloc, graph)?;
    let sides = sides_of_usable(alloc, graph, &tree, &blocks, &usable)?;
    let pairs = first_conflicts(alloc, graph.coded(), MAX_COMPARED)?;
    let columns = columns_of_usable(alloc, &blocks, &usable, &sides, &pairs)?;
    let crowds = crowds_of(alloc, graph, chains, &blocks, conflicts)?;
    Ok(BlockList {
        blocks,
        usable,
        sides,
        columns,
        crowds,
    })
}

/// The blocks of the graph.
fn all_blocks(alloc: Global, graph: &Proper) -> Result<Vec<Block>, NoMemory>
    ensures { IfOk result (λ list. AreBlocks graph.now list.items) }
{
    let components = components(alloc, graph.coded())?;
    let sets = blocks(alloc, graph, &components)?;
    let mut list = Vec::new(alloc);
    for set in sets {
        list.push(Block::of(alloc, &set)?)?;
    }
    Ok(list)
}

/// For each block whether it is usable.
fn usable_ones(alloc: Global, graph: &Proper, blocks: &[Block]) -> Result<Vec<bool>, NoMemory>
    requires { All (λ block. length block ≡ graph.now.graph.states) blocks.now }
    ensures { IfOk result (λ usable. AreUsable graph.now.graph blocks.now usable.items) }
{
    let may_switch = which_may_switch(alloc, graph, blocks)?;
    let mut usable = Vec::new(alloc);
    for k in 0..blocks.len() {
        usable.push(is_usable(&blocks[k], may_switch[k]))?;
    }
    Ok(usable)
}

/// Whether the block has a state, and the flag says that a new signal may switch in it.
fn is_usable(block: &Block, may_switch: bool) -> bool
    ensures { IsTrue result ↔ (IsTrue may_switch × ((s : ℕ) × IsIn block.now s)) }
{
    may_switch && has_state(block)
}

/// Whether the block has a state.
fn has_state(block: &Block) -> bool
    ensures { IsTrue result ↔ ((s : ℕ) × IsIn block.now s) }
{
    block.set().first_from(StateId(0)).is_some()
}

/// For each usable block the sides of the states.
fn sides_of_usable(
    alloc: Global,
    graph: &Proper,
    tree: &[Link],
    blocks: &[Block],
    usable: &[bool],
) -> Result<Vec<StateSet>, NoMemory>
    requires tree { IsTree graph.now.graph tree.now }
    requires sizes { All (λ block. length block ≡ graph.now.graph.states) blocks.now }
    requires count { length usable.now ≡ length blocks.now }
    ensures { IfOk result (λ list. HaveSides graph.now.graph blocks.now usable.now list.items) }
{
    let mut list = Vec::new(alloc);
    for k in 0..blocks.len() {
        list.push(sides_if(alloc, graph, tree, &blocks[k], usable[k])?)?;
    }
    Ok(list)
}

/// The sides of the block, if it is usable.
fn sides_if(
    alloc: Global,
    graph: &Proper,
    tree: &[Link],
    block: &Block,
    usable: bool,
) -> Result<StateSet, NoMemory>
    requires tree { IsTree graph.now.graph tree.now }
    requires size { length block.now ≡ graph.now.graph.states }
    ensures { IfOk result
        (λ set. IsTrue usable → AreSides graph.now.graph tree.now block.now set) }
{
    if !usable {
        return Ok(StateSet::new(alloc, 0)?);
    }
    let set = sides(alloc, graph, tree, block.set())?;
    Ok(set)
}

/// For each usable block how it lies to these conflicts.
fn columns_of_usable(
    alloc: Global,
    blocks: &[Block],
    usable: &[bool],
    sides: &[StateSet],
    pairs: &[Pair],
) -> Result<Vec<Column>, NoMemory>
    requires usable_count { length usable.now ≡ length blocks.now }
    requires sides_count { length sides.now ≡ length blocks.now }
    requires sizes { (k : ℕ) → k < length blocks.now → slice_index_or usable.now k false ≡ true
        → AreWithin (block_at blocks.now k) (block_at sides.now k) pairs.now }
    ensures { IfOk result (λ list. HaveAspects blocks.now usable.now sides.now
        (pairs_of pairs.now) list.items) }
{
    let mut list = Vec::new(alloc);
    for k in 0..blocks.len() {
        list.push(column_if(alloc, &blocks[k], &sides[k], pairs, usable[k])?)?;
    }
    Ok(list)
}

/// How the block lies to these conflicts, if it is usable.
fn column_if(
    alloc: Global,
    block: &Block,
    sides: &StateSet,
    pairs: &[Pair],
    usable: bool,
) -> Result<Column, NoMemory>
    requires { IsTrue usable → AreWithin block.now sides.now pairs.now }
    ensures { IfOk result (λ column. IsTrue usable
        → column ≡ map (aspect_of block.now sides.now) (pairs_of pairs.now)) }
{
    if !usable {
        return Ok(Column::none(alloc));
    }
    let column = Column::of(alloc, block.set(), sides, pairs)?;
    Ok(column)
}

/// For each block a crowd of at least so many states that has one in it, if there is one.
fn crowds_of(
    alloc: Global,
    graph: &Proper,
    chains: &CodeChains,
    blocks: &[Block],
    least: u64,
) -> Result<Vec<Option<Crowd>>, NoMemory>
    requires chains { AreChains graph.now chains.now }
    requires sizes { All (λ block. length block ≡ graph.now.graph.states) blocks.now }
    ensures { IfOk result (λ crowds. HaveCrowds chains.now.members blocks.now crowds.items) }
{
    let crowded = chains.crowded_states(alloc, graph, least)?;
    let mut crowds = Vec::new(alloc);
    for k in 0..blocks.len() {
        crowds.push(crowd_in(&crowded, blocks[k].set()))?;
    }
    Ok(crowds)
}
