//! How many conflicts candidates leave, before anything is known of their classes.

ghost use Rattle.std.specs.Prelude.{◌≡◌, ℕ, ◌*◌, ◌<◌, ◌≤◌, Bool, List, IfOk, IfSome, IfNone};
ghost use Rattle.std.specs.Prelude.{length, unwrap_or};
ghost use Rattle.si_base.specs.Codes.{CodedGraph, IsCoded};
ghost use Rattle.si_base.specs.Limits.{max_states};
ghost use Rattle.si_base.specs.Sets.{IsIn};
ghost use Rattle.si_candidates.specs.Blocks.{block_at};
ghost use Rattle.si_candidates.specs.Loops.Sides.{AreSided};
ghost use Rattle.si_conflicts.specs.Loops.Chains.{AreChains};
ghost use Rattle.si_resolve.specs.Loops.Counting.{AreCounts, AreLeft, AreTold, HaveTold};
ghost use Rattle.si_resolve.specs.Loops.Counting.{IsOwn, own_at};
ghost use Rattle.si_resolve.specs.Loops.Progress.{LeavesNoneBelow};
ghost use Rattle.si_resolve.specs.Loops.Usable.{IsUsable, AreSearched};

use crate::block_list::BlockList;
use crate::by_sides::BySides;
use si_base::ids::NoMemory;
use si_base::sets::StateSet;
use si_candidates::block::Block;
use si_checks::proper::Proper;
use si_conflicts::chains::CodeChains;
use std::alloc::Global;

/// The states of a graph by their codes, and for each block the conflicts that it has of its own,
/// once they were asked for: these are left by each candidate with the block.
#[derive(Drop)]
pub(crate) struct Counts {
    chains: CodeChains,
    own: Vec<Option<u64>>,
}

impl Counts {
    /// The counts for so many blocks, of none of which anything is known. It fails only where
    /// memory runs out.
    pub(crate) fn new(alloc: Global, chains: CodeChains, blocks: usize) -> Result<Counts, NoMemory>
        ensures { IfOk result (λ counts. (c : CodedGraph) → AreChains c chains
            → (list : List (List Bool)) → length list ≡ blocks → AreCounts c list counts) }
    {
        let own = vec![in alloc; None; blocks]?;
        Ok(Counts { chains, own })
    }

    /// How many conflicts the candidate of the two blocks leaves, if it has classes, where these
    /// are fewer than `bar`.
    pub(crate) fn left_below(
        &mut self,
        alloc: Global,
        graph: &Proper,
        list: &BlockList,
        i: usize,
        j: usize,
        bar: u64,
    ) -> Result<Option<u64>, NoMemory>
        requires list { AreSearched graph.now list.now }
        requires order { i < j }
        requires within { j < length list.now.blocks.items }
        requires first { IsUsable graph.now.graph (block_at list.now.blocks.items i) }
        requires later { IsUsable graph.now.graph (block_at list.now.blocks.items j) }
        requires before { AreCounts graph.now list.now.blocks.items self.old }
        ensures after { AreCounts graph.now list.now.blocks.items self.new }
        ensures left { IfOk result (λ o. IfSome o
            (AreLeft graph.now (block_at list.now.blocks.items i)
            (block_at list.now.blocks.items j))) }
        ensures fewer { IfOk result (λ o. IfSome o (λ n. n < bar)) }
        ensures none { IfOk result (λ o. IfNone o
            (LeavesNoneBelow graph.now (block_at list.now.blocks.items i)
            (block_at list.now.blocks.items j) bar)) }
    {
        let room = bar.saturating_sub(self.known(i) + self.known(j));
        let Some(told) = self.told_below(
            graph,
            list.block(i),
            list.block(j),
            list.sides(i),
            list.sides(j),
            room,
        ) else {
            return Ok(None);
        };
        let own = self.own(alloc, graph, list, i)? + self.own(alloc, graph, list, j)?;
        Ok(below(told + own, bar))
    }

    /// How many conflicts the candidate leaves, if it has classes, but for those that its blocks
    /// have of their own, where these are fewer than `room`. The sides of the blocks tell the only
    /// classes that there can be, and nothing is searched for that.
    fn told_below(
        &self,
        graph: &Proper,
        plus: &Block,
        minus: &Block,
        plus_sides: &StateSet,
        minus_sides: &StateSet,
        room: u64,
    ) -> Option<u64>
        requires coded { IsCoded graph.now }
        requires chains { AreChains graph.now self.now.chains }
        requires plus_size { length plus.now ≡ graph.now.graph.states }
        requires minus_size { length minus.now ≡ graph.now.graph.states }
        requires sided { AreSided graph.now.graph plus.now minus.now
            plus_sides.now minus_sides.now }
        requires some_plus { (s : ℕ) × IsIn plus.now s }
        requires some_minus { (s : ℕ) × IsIn minus.now s }
        ensures told { IfSome result
            (AreTold graph.now self.now.chains.members plus.now minus.now) }
        ensures fewer { IfSome result (λ n. n < room) }
        ensures few { IfSome result (λ n. n ≤ 2 * max_states * max_states) }
        ensures none { IfNone result
            (HaveTold graph.now self.now.chains.members plus.now minus.now room) }
    {
        let classes = BySides::new(graph, plus, minus, plus_sides, minus_sides);
        self.chains.told_below(graph, &classes, room)
    }

    /// The conflicts that the block at that place has of its own, or 0 where they weren't asked
    /// for.
    fn known(&self, k: usize) -> u64
        requires { k < length self.now.own.items }
        ensures { result ≡ unwrap_or (own_at self.now.own.items k) 0 }
    {
        self.own[k].unwrap_or(0)
    }

    /// How many conflicts the block at that place has of its own. It fails only where memory runs
    /// out.
    fn own(
        &mut self,
        alloc: Global,
        graph: &Proper,
        list: &BlockList,
        k: usize,
    ) -> Result<u64, NoMemory>
        requires list { AreSearched graph.now list.now }
        requires within { k < length list.now.blocks.items }
        requires before { AreCounts graph.now list.now.blocks.items self.old }
        ensures own { IfOk result (IsOwn graph.now self.old.chains.members
            (block_at list.now.blocks.items k)) }
        ensures after { AreCounts graph.now list.now.blocks.items self.new }
        ensures chains { self.new.chains ≡ self.old.chains }
    {
        if let Some(own) = self.own[k] {
            return Ok(own);
        }
        let own = self
            .chains
            .own_conflicts(alloc, graph, list.block(k).set())?;
        self.own[k] = Some(own);
        Ok(own)
    }
}

/// The number where it is below the bar.
fn below(n: u64, bar: u64) -> Option<u64>
    ensures some { IfSome result (λ m. (m ≡ n) × (n < bar)) }
    ensures none { IfNone result (bar ≤ n) }
{
    if n < bar { Some(n) } else { None }
}
