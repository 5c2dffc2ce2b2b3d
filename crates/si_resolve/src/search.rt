//! The search for the best candidate, candidate after candidate.

ghost use Rattle.std.specs.Prelude.{◌≡◌, ℕ, ◌+◌, ◌<◌, ◌↔◌, Bool, false, List, IfOk, IfSome};
ghost use Rattle.std.specs.Prelude.{IfNone, OnOk, IsTrue, MatchOption, length, count_by};
ghost use Rattle.si_base.specs.Codes.{CodedGraph};
ghost use Rattle.si_candidates.specs.Blocks.{block_at};
ghost use Rattle.si_candidates.specs.Parts.{AreClasses, HaveNoClasses};
ghost use Rattle.si_conflicts.specs.Loops.Chains.{AreChains};
ghost use Rattle.si_conflicts.specs.Conflicts.{HasConflicts};
ghost use Rattle.si_resolve.specs.Best.{Choice, Improves, NoneImproves};
ghost use Rattle.si_resolve.specs.Loops.Counting.{AreCounts};
ghost use Rattle.si_resolve.specs.Loops.Usable.{IsUsable, AreSearched};
ghost use Rattle.si_resolve.specs.Loops.Progress.{IsSearching, LeavesBelow};
ghost use Rattle.si_resolve.specs.Loops.Progress.{MayBeAccepted};
ghost use Rattle.si_resolve.specs.Loops.Progress.{LeavesNoneBelow, NoneIsBelow, bar_of};

use crate::block_list::BlockList;
use crate::counts::Counts;
use si_base::ids::NoMemory;
use si_base::limits::MAX_STATES;
use si_candidates::block::Block;
use si_candidates::by_sides::classes_by_sides;
use si_checks::proper::Proper;
use si_conflicts::chains::CodeChains;
use si_insert::accept::Accepted;
use std::alloc::Global;

/// The partition of an accepted candidate, and the number of conflicts that it leaves.
#[derive(Drop)]
struct Found {
    accepted: Accepted,
    conflicts: u64,
}

/// The number of conflicts of the given graph, the best candidate so far that leaves fewer, and
/// what counts the conflicts that candidates leave.
#[derive(Drop)]
struct Search {
    given: u64,
    best: Option<Found>,
    counts: Counts,
}

/// The partition of the best candidate, if it leaves fewer conflicts than the graph has.
pub(crate) fn find_best(
    alloc: Global,
    graph: &Proper,
    chains: CodeChains,
    list: &BlockList,
    conflicts: u64,
) -> Result<Option<Accepted>, NoMemory>
    requires chains { AreChains graph.now chains }
    requires list { AreSearched graph.now list.now }
    requires counted { HasConflicts graph.now conflicts }
    ensures { IfOk result (λ o. MatchOption o (NoneImproves graph.now)
        (λ a. (x : Choice) × Improves graph.now x × (x.classes ≡ a))) }
{
    let counts = Counts::new(alloc, chains, list.blocks.len())?;
    let mut search = Search::new(counts, conflicts);
    for j in 0..list.blocks.len() {
        search.try_row(alloc, graph, list, j)?;
    }
    let Search { best, .. } = search;
    match best {
        None => Ok(None),
        Some(found) => Ok(Some(found.accepted)),
    }
}

impl Search {
    /// The search before all candidates.
    fn new(counts: Counts, conflicts: u64) -> Search
        ensures given { result.given ≡ conflicts }
        ensures starts { (c : CodedGraph) → (blocks : List (List Bool)) → AreCounts c blocks counts
            → IsSearching c blocks 0 0 result }
    {
        Search {
            given: conflicts,
            best: None,
            counts,
        }
    }

    /// Looks at all candidates whose later block is that one.
    fn try_row(
        &mut self,
        alloc: Global,
        graph: &Proper,
        list: &BlockList,
        j: usize,
    ) -> Result<(), NoMemory>
        requires list { AreSearched graph.now list.now }
        requires within { j < length list.now.blocks.items }
        requires before { IsSearching graph.now list.now.blocks.items j 0 self.old }
        ensures given { self.new.given ≡ self.old.given }
        ensures after { OnOk result
            (IsSearching graph.now list.now.blocks.items (j + 1) 0 self.new) }
    {
        if !list.is_usable(j) {
            return Ok(());
        }
        for i in 0..j {
            self.try_candidate(alloc, graph, list, i, j)?;
        }
        Ok(())
    }

    /// Looks at the candidate of the two blocks.
    fn try_candidate(
        &mut self,
        alloc: Global,
        graph: &Proper,
        list: &BlockList,
        i: usize,
        j: usize,
    ) -> Result<(), NoMemory>
        requires list { AreSearched graph.now list.now }
        requires order { i < j }
        requires within { j < length list.now.blocks.items }
        requires usable { IsUsable graph.now.graph (block_at list.now.blocks.items j) }
        requires before { IsSearching graph.now list.now.blocks.items j i self.old }
        ensures given { self.new.given ≡ self.old.given }
        ensures after { OnOk result
            (IsSearching graph.now list.now.blocks.items j (i + 1) self.new) }
    {
        if self.shares_crowd(graph, list, i, j) {
            return Ok(());
        }
        if !self.may_be_better(graph, list, i, j) {
            return Ok(());
        }
        if !self.may_part(graph, list, i, j) {
            return Ok(());
        }
        let left = self.found_below(alloc, graph, list, i, j)?;
        if let Some(found) = left {
            self.best = Some(found);
        }
        Ok(())
    }

    /// Whether the two blocks have states of one crowd, whose conflicts alone are as many as the
    /// best so far leaves.
    fn shares_crowd(&self, graph: &Proper, list: &BlockList, i: usize, j: usize) -> bool
        requires list { AreSearched graph.now list.now }
        requires i_within { i < length list.now.blocks.items }
        requires j_within { j < length list.now.blocks.items }
        ensures { IsTrue result
            → NoneIsBelow graph.now list.now.blocks.items i j (bar_of self.now) }
    {
        let _ = graph;
        list.share_crowd(i, j, self.bar())
    }

    /// Whether, before anything is searched for it, the candidate of the two blocks may be accepted
    /// and leave fewer conflicts than the best so far.
    fn may_be_better(&self, graph: &Proper, list: &BlockList, i: usize, j: usize) -> bool
        requires list { AreSearched graph.now list.now }
        requires order { i < j }
        requires within { j < length list.now.blocks.items }
        ensures first { IsTrue result
            → IsUsable graph.now.graph (block_at list.now.blocks.items i) }
        ensures both { IsTrue result → MayBeAccepted graph.now.graph
            (block_at list.now.blocks.items i) (block_at list.now.blocks.items j) }
        ensures otherwise { result ≡ false
            → NoneIsBelow graph.now list.now.blocks.items i j (bar_of self.now) }
    {
        self.bar() > 0 && list.is_usable(i) && may_be_accepted(graph, list.block(i), list.block(j))
    }

    /// Whether the first conflicts that the two blocks don't part are fewer than the best so far
    /// leaves: these stay, whatever classes the candidate has.
    fn may_part(&self, graph: &Proper, list: &BlockList, i: usize, j: usize) -> bool
        requires list { AreSearched graph.now list.now }
        requires counts { AreCounts graph.now list.now.blocks.items self.now.counts }
        requires i_within { i < length list.now.blocks.items }
        requires j_within { j < length list.now.blocks.items }
        requires first { IsUsable graph.now.graph (block_at list.now.blocks.items i) }
        requires later { IsUsable graph.now.graph (block_at list.now.blocks.items j) }
        ensures { result ≡ false
            → NoneIsBelow graph.now list.now.blocks.items i j (bar_of self.now) }
    {
        let _ = graph;
        list.leaves_below(i, j, self.bar())
    }

    /// The number of conflicts that the next candidate has to get below.
    fn bar(&self) -> u64
        ensures { result ≡ bar_of self.now }
    {
        match &self.best {
            None => self.given,
            Some(found) => found.conflicts,
        }
    }

    /// The candidate with the number of conflicts that it leaves, if it has classes and the number
    /// is below the bar. Its classes are made last: most candidates are passed over without them.
    fn found_below(
        &mut self,
        alloc: Global,
        graph: &Proper,
        list: &BlockList,
        i: usize,
        j: usize,
    ) -> Result<Option<Found>, NoMemory>
        requires list { AreSearched graph.now list.now }
        requires order { i < j }
        requires within { j < length list.now.blocks.items }
        requires first { IsUsable graph.now.graph (block_at list.now.blocks.items i) }
        requires later { IsUsable graph.now.graph (block_at list.now.blocks.items j) }
        requires both { MayBeAccepted graph.now.graph (block_at list.now.blocks.items i)
            (block_at list.now.blocks.items j) }
        requires before { IsSearching graph.now list.now.blocks.items j i self.old }
        ensures below { IfOk result (λ o. IfSome o
            (LeavesBelow graph.now (block_at list.now.blocks.items i)
            (block_at list.now.blocks.items j) (bar_of self.old))) }
        ensures none { IfOk result (λ o. IfNone o
            (LeavesNoneBelow graph.now (block_at list.now.blocks.items i)
            (block_at list.now.blocks.items j) (bar_of self.old))) }
        ensures given { self.new.given ≡ self.old.given }
        ensures bar { bar_of self.new ≡ bar_of self.old }
        ensures after { IsSearching graph.now list.now.blocks.items j i self.new }
    {
        let bar = self.bar();
        let left = self.counts.left_below(alloc, graph, list, i, j, bar)?;
        let Some(conflicts) = left else {
            return Ok(None);
        };
        match accepted_candidate(alloc, graph, list, i, j)? {
            None => Ok(None),
            Some(accepted) => Ok(Some(Found {
                accepted,
                conflicts,
            })),
        }
    }
}

/// The partition of the candidate of the two blocks, which may be accepted, if it has classes.
fn accepted_candidate(
    alloc: Global,
    graph: &Proper,
    list: &BlockList,
    i: usize,
    j: usize,
) -> Result<Option<Accepted>, NoMemory>
    requires list { AreSearched graph.now list.now }
    requires order { i < j }
    requires within { j < length list.now.blocks.items }
    requires first { IsUsable graph.now.graph (block_at list.now.blocks.items i) }
    requires later { IsUsable graph.now.graph (block_at list.now.blocks.items j) }
    requires both { MayBeAccepted graph.now.graph (block_at list.now.blocks.items i)
        (block_at list.now.blocks.items j) }
    ensures classes { IfOk result (λ o. IfSome o
        (AreClasses graph.now.graph (block_at list.now.blocks.items i)
        (block_at list.now.blocks.items j))) }
    ensures none { IfOk result (λ o. IfNone o
        (HaveNoClasses graph.now.graph (block_at list.now.blocks.items i)
        (block_at list.now.blocks.items j))) }
{
    let by_sides = classes_by_sides(
        alloc,
        graph,
        list.block(i).set(),
        list.block(j).set(),
        list.sides(i),
        list.sides(j),
    )?;
    match by_sides {
        None => Ok(None),
        Some(partition) => Ok(Some(Accepted::known(graph, partition))),
    }
}

/// Whether the two blocks, in each of which a new signal may switch, share no state and leave room.
fn may_be_accepted(graph: &Proper, plus: &Block, minus: &Block) -> bool
    requires plus_size { length plus.now ≡ graph.now.graph.states }
    requires minus_size { length minus.now ≡ graph.now.graph.states }
    ensures { IsTrue result ↔ MayBeAccepted graph.now.graph plus.now minus.now }
{
    plus.is_apart(minus) && copies(graph, plus, minus) <= MAX_STATES as u64
}

/// The number of states after the insertion where the new signal rises in the one block and falls
/// in the other.
fn copies(graph: &Proper, plus: &Block, minus: &Block) -> u64
    requires plus_size { length plus.now ≡ graph.now.graph.states }
    requires minus_size { length minus.now ≡ graph.now.graph.states }
    ensures { result ≡ graph.now.graph.states + count_by (λ b. b) plus.now
        + count_by (λ b. b) minus.now }
{
    let states = graph.coded().graph().states();
    states as u64 + plus.count() as u64 + minus.count() as u64
}
