//! Places linked by states.

ghost use Rattle.std.specs.Prelude.{◌≡◌, ◌<◌, ◌^◌, All, IfOk, length, replicate};
ghost use Rattle.std.specs.Prelude.{slice_index, slice_index_or, slice_set};
ghost use Rattle.si_graph.specs.Loops.Ends.{AreChained, state_at};

use si_base::graph::Edge;
use si_base::ids::{NoMemory, StateId};
use std::alloc::Global;

/// An end of an arc.
#[derive(Clone, Copy)]
pub(crate) enum End {
    Source,
    Target,
}

/// For each state its first place, and for each place the next one of its state. The number of
/// places ends a chain.
#[derive(Drop)]
pub(crate) struct Chain {
    heads: Vec<u32>,
    nexts: Vec<u32>,
    end: u32,
}

impl Chain {
    /// Empty chains of so many states, which can link so many places.
    pub(crate) fn new(alloc: Global, states: u32, places: u32) -> Result<Chain, NoMemory>
        ensures heads { IfOk result (λ chain. chain.heads.items ≡ replicate states places) }
        ensures nexts { IfOk result (λ chain. chain.nexts.items ≡ replicate places places) }
        ensures end { IfOk result (λ chain. chain.end ≡ places) }
    {
        Ok(Chain {
            heads: vec![in alloc; places; states as usize]?,
            nexts: vec![in alloc; places; places as usize]?,
            end: places,
        })
    }

    /// The places of all arcs, chained by the states at this end of them. It fails only where
    /// memory runs out.
    pub(crate) fn of_arcs(
        alloc: Global,
        states: u32,
        arcs: &[Edge],
        end: End,
    ) -> Result<Chain, NoMemory>
        requires few { length arcs.now < 2 ^ 32 }
        requires within { All (λ a. state_at end a < states) arcs.now }
        ensures { IfOk result (λ chain. AreChained end states arcs.now chain) }
    {
        let count = arcs.len() as u32;
        let mut chain = Chain::new(alloc, states, count)?;
        let mut k = count;
        while 0 < k {
            k -= 1;
            chain.put_first(state_at(arcs[k as usize], end), k);
        }
        Ok(chain)
    }

    /// Equal chains.
    pub(crate) fn copy(&self, alloc: Global) -> Result<Chain, NoMemory>
        ensures heads { IfOk result (λ chain. chain.heads.items ≡ self.now.heads.items) }
        ensures nexts { IfOk result (λ chain. chain.nexts.items ≡ self.now.nexts.items) }
        ensures end { IfOk result (λ chain. chain.end ≡ self.now.end) }
    {
        Ok(Chain {
            heads: Vec::from_slice(alloc, self.heads.as_slice())?,
            nexts: Vec::from_slice(alloc, self.nexts.as_slice())?,
            end: self.end,
        })
    }

    /// Puts a place in front of the chain of a state.
    pub(crate) fn put_first(&mut self, s: StateId, place: u32)
        requires state { s < length self.old.heads.items }
        requires place { place < length self.old.nexts.items }
        ensures heads { self.new.heads.items ≡ slice_set self.old.heads.items s place }
        ensures nexts { self.new.nexts.items ≡ slice_set self.old.nexts.items place
            (slice_index self.old.heads.items s) }
        ensures end { self.new.end ≡ self.old.end }
    {
        self.nexts[place as usize] = self.heads[s.0 as usize];
        self.heads[s.0 as usize] = place;
    }

    /// The first place of a state's chain, or the end.
    pub(crate) fn head(&self, s: StateId) -> u32
        ensures { result ≡ slice_index_or self.now.heads.items s self.now.end }
    {
        self.heads.get(s.0 as usize).copied().unwrap_or(self.end)
    }

    /// The next place of the same chain, or the end.
    pub(crate) fn next(&self, place: u32) -> u32
        requires { place < length self.now.nexts.items }
        ensures { result ≡ slice_index self.now.nexts.items place }
    {
        self.nexts[place as usize]
    }
}

/// The state at an end of an arc.
fn state_at(arc: Edge, end: End) -> StateId
    ensures { result ≡ state_at end arc }
{
    match end {
        End::Source => arc.from,
        End::Target => arc.to,
    }
}
