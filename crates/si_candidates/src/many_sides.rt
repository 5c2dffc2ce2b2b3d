//! The sides of many blocks, of 128 at once.

ghost use Rattle.std.specs.Prelude.{◌≡◌, ◌≤◌, ◌<◌, IfOk, OnOk, All, length};
ghost use Rattle.si_candidates.specs.Loops.Sides.{AreSidesOf};
ghost use Rattle.si_candidates.specs.Loops.Tree.{IsTree};

use crate::block::Block;
use crate::may_switch::block_words;
use crate::sides::sides_of_words;
use crate::tree::Link;
use si_base::ids::NoMemory;
use si_base::sets::StateSet;
use si_checks::proper::Proper;
use si_closures::columns::sets_of_words;
use si_closures::words::SETS;
use std::alloc::Global;

/// For each block the states on the other side of it than the start. It fails only where memory
/// runs out.
pub fn many_sides(
    alloc: Global,
    graph: &Proper,
    tree: &[Link],
    blocks: &[Block],
) -> Result<Vec<StateSet>, NoMemory>
    requires tree { IsTree graph.now.graph tree.now }
    requires sizes { All (λ b. length b ≡ graph.now.graph.states) blocks.now }
    ensures count { IfOk result (λ list. length list.items ≡ length blocks.now) }
    ensures sides { IfOk result
        (λ list. AreSidesOf graph.now.graph tree.now blocks.now list.items) }
{
    let mut list = Vec::new(alloc);
    while list.len() < blocks.len() {
        add_sides(alloc, graph, tree, blocks, &mut list)?;
    }
    Ok(list)
}

/// Adds the sides of the next blocks, of which there are 128 at most.
fn add_sides(
    alloc: Global,
    graph: &Proper,
    tree: &[Link],
    blocks: &[Block],
    list: &mut Vec<StateSet>,
) -> Result<(), NoMemory>
    requires tree { IsTree graph.now.graph tree.now }
    requires sizes { All (λ b. length b ≡ graph.now.graph.states) blocks.now }
    requires some { length list.old.items < length blocks.now }
    requires sides { AreSidesOf graph.now.graph tree.now blocks.now list.old.items }
    ensures within { OnOk result (length list.new.items ≤ length blocks.now) }
    ensures more { OnOk result (length list.old.items < length list.new.items) }
    ensures sides { OnOk result
        (AreSidesOf graph.now.graph tree.now blocks.now list.new.items) }
{
    let first = list.len();
    let count = (blocks.len() - first).min(SETS);
    let states = graph.coded().graph().states();
    let words = block_words(alloc, states, blocks, first)?;
    let sides = sides_of_words(alloc, graph, tree, &words)?;
    let mut sets = sets_of_words(alloc, &sides, states, count)?;
    list.append(&mut sets)?;
    Ok(())
}
