//! The blocks in which a new signal may switch, and the classes that two of them tell.

ghost use Rattle.std.specs.Prelude.{IfOk};
ghost use Rattle.si_candidates.specs.Blocks.{AreBlocks};
ghost use Rattle.si_candidates.specs.Loops.Tree.{IsTree};

use crate::least::has;
use si_base::ids::{NoMemory, StateId};
use si_base::sets::StateSet;
use si_candidates::block::Block;
use si_candidates::blocks::blocks;
use si_candidates::may_switch::which_may_switch;
use si_candidates::sides::{class_by, sides};
use si_candidates::tree::{Link, tree};
use si_checks::proper::Proper;
use si_insert::partition::Class;
use si_regions::regions::components;
use std::alloc::Global;

/// A block, its first state, and the states on the other side of it than the start.
#[derive(Drop)]
pub(crate) struct Sided {
    block: Block,
    sides: StateSet,
    first: StateId,
}

/// The blocks of the graph that have a state and in which a new signal may switch, in their order.
/// It fails only where memory runs out.
pub(crate) fn sided_blocks(alloc: Global, graph: &Proper) -> Result<Vec<Sided>, NoMemory> {
    let list = all_blocks(alloc, graph)?;
    let may_switch = which_may_switch(alloc, graph, &list)?;
    let tree = tree(alloc, graph)?;
    let mut found = Vec::new(alloc);
    for k in 0..list.len() {
        if may_switch.get(k) == Some(&true) {
            add_sided(alloc, graph, &tree, &list[k], &mut found)?;
        }
    }
    Ok(found)
}

/// The blocks of the graph.
pub(crate) fn all_blocks(alloc: Global, graph: &Proper) -> Result<Vec<Block>, NoMemory>
    ensures { IfOk result (λ list. AreBlocks graph.now list.items) }
{
    let components = components(alloc, graph.coded())?;
    let sets = blocks(alloc, graph, &components)?;
    let mut list = Vec::new(alloc);
    for set in sets {
        list.push(Block::from_set(set))?;
    }
    Ok(list)
}

/// Adds the block with its sides, if it has a state.
fn add_sided(
    alloc: Global,
    graph: &Proper,
    tree: &[Link],
    block: &Block,
    found: &mut Vec<Sided>,
) -> Result<(), NoMemory>
    requires { IsTree graph.now.graph tree.now }
{
    if block.set().size() != graph.coded().graph().states() {
        return Ok(());
    }
    let Some(first) = block.set().first_from(StateId(0)) else {
        return Ok(());
    };
    found.push(Sided {
        block: Block::of(alloc, block.set())?,
        sides: sides(alloc, graph, tree, block.set())?,
        first,
    })?;
    Ok(())
}

impl Sided {
    /// How many states the graph has.
    pub(crate) fn size(&self) -> u64 {
        self.sides.size() as u64
    }

    /// Whether no state is in both blocks.
    pub(crate) fn is_apart(&self, other: &Sided) -> bool {
        self.block.set().size() == other.block.set().size() && self.block.is_apart(&other.block)
    }

    /// Whether the state lies on different sides of the two blocks.
    fn is_between(&self, other: &Sided, s: StateId) -> bool {
        has(&self.sides, s) != has(&other.sides, s)
    }

    /// The class of a state where the signal rises in this block and falls in the other, and has
    /// the value 0 or 1 on the way to states between them.
    fn class(&self, other: &Sided, turn: bool, s: StateId) -> Class {
        let value = self.is_between(other, s) != turn;
        class_by(has(self.block.set(), s), has(other.block.set(), s), value)
    }

    /// Writes the only classes that there can be where the signal rises in this block and falls in
    /// the other. Whether they are lawful is left open.
    pub(crate) fn write_classes(
        &self,
        other: &Sided,
        classes: &mut Vec<Class>,
    ) -> Result<(), NoMemory> {
        classes.clear();
        let turn = self.is_between(other, self.first);
        for k in 0..self.sides.size() {
            classes.push(self.class(other, turn, StateId(k)))?;
        }
        Ok(())
    }
}
