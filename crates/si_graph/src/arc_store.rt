//! Arcs in order: those out of a state stand together, and those into a state are chained.

ghost use Rattle.std.specs.Prelude.{◌≡◌, ℕ, ◌+◌, ◌<◌, ◌≤◌, ◌^◌, ◌↔◌, IfOk, All, Contains};
ghost use Rattle.std.specs.Prelude.{IsTrue, MatchOption, length};
ghost use Rattle.std.specs.List.Sorted.{IsStrictlySortedBy};
ghost use Rattle.si_base.specs.declared.graph.Edge.{Edge};
ghost use Rattle.si_base.specs.EdgeOrder.{edge_cmp};
ghost use Rattle.si_graph.specs.Loops.Arcs.{edge_at, IsFirstPlace, IsInto, IsOutOf};
ghost use Rattle.si_graph.specs.Loops.Starts.{AreBelow, AreStarts, IsStart};

use crate::chain::{Chain, End};
use si_base::graph::Edge;
use si_base::ids::{NoMemory, StateId};
use std::alloc::Global;
use std::marker::Model;

/// An arc of a graph, by its place in the order of arcs.
#[derive(Clone, Copy, PartialEq, Eq, PartialOrd, Ord, Debug)]
pub struct EdgeId(pub u32);

impl Model for EdgeId {
    ghost Value = { ℕ };

    ghost view = { λ k. k.0 };

    ghost inverse = { λ n. record { 0 = n } };
}

/// The arcs among the states of a graph, in the order of source, event and target, each once.
///
/// Since the arcs are in order, those out of a state stand together, and the store knows where they
/// start. Each arc is linked to the next one into its target. A walk follows the order of arcs: out
/// of a state it is that of events, then targets, and into a state that of sources, then events.
#[derive(Drop)]
pub struct ArcStore {
    states: u32,
    edges: Vec<Edge>,
    starts: Vec<u32>,
    into: Chain,
}

impl Model for ArcStore {
    ghost use Rattle.si_graph.specs.Loops.Chains.{StoredArcs};
    ghost use Rattle.si_graph.specs.Loops.Starts.{AreIndexed};

    ghost Value = { StoredArcs };

    ghost view = { λ a. record { states = a.states; edges = a.edges.items } };

    ghost invariant = { λ a. AreIndexed a.states a.edges.items a.starts.items a.into };
}

impl ArcStore {
    /// The store of these arcs. It fails only where memory runs out.
    pub fn build(alloc: Global, states: u32, edges: Vec<Edge>) -> Result<ArcStore, NoMemory>
        requires few { length edges.items < 2 ^ 32 }
        requires within { All (λ a. (a.from < states) × (a.to < states)) edges.items }
        requires ordered { IsStrictlySortedBy edge_cmp edges.items }
        ensures { IfOk result (λ store. store ≡ record { states = states; edges = edges.items }) }
    {
        let starts = starts_of(alloc, states, edges.as_slice())?;
        let into = Chain::of_arcs(alloc, states, edges.as_slice(), End::Target)?;
        Ok(ArcStore {
            states,
            edges,
            starts,
            into,
        })
    }

    /// An equal store. It fails only where memory runs out.
    pub fn copy(&self, alloc: Global) -> Result<ArcStore, NoMemory>
        ensures { IfOk result (λ store. store ≡ self.now) }
    {
        Ok(ArcStore {
            states: self.states,
            edges: Vec::from_slice(alloc, self.edges.as_slice())?,
            starts: Vec::from_slice(alloc, self.starts.as_slice())?,
            into: self.into.copy(alloc)?,
        })
    }

    /// The number of states.
    pub fn states(&self) -> u32
        ensures { result ≡ self.now.states }
    {
        self.states
    }

    /// The number of arcs.
    pub fn edges(&self) -> u32
        ensures { result ≡ length self.now.edges }
    {
        self.edges.len() as u32
    }

    /// The arc at a place.
    pub fn edge(&self, k: EdgeId) -> Edge
        requires { k < length self.now.edges }
        ensures { result ≡ edge_at self.now.edges k }
    {
        self.edges[k.0 as usize]
    }

    /// All arcs in order.
    pub fn arcs(&self) -> &[Edge]
        ensures { result.now ≡ self.now.edges }
    {
        self.edges.as_slice()
    }

    /// The arcs out of a state, in order.
    pub fn arcs_out(&self, s: StateId) -> &[Edge]
        ensures exactly { (a : Edge) → Contains result.now a
            ↔ (Contains self.now.edges a × (a.from ≡ s)) }
        ensures ordered { IsStrictlySortedBy edge_cmp result.now }
    {
        let low = self.start(s.0 as usize);
        let high = self.start(s.0 as usize + 1);
        let (up_to_high, _) = self.edges.as_slice().split_at(high as usize);
        let (_, out) = up_to_high.split_at(low as usize);
        out
    }

    /// The place at which the arcs out of state `s` start, and those out of the states below end.
    fn start(&self, s: usize) -> u32
        ensures { IsStart self.now.edges s result }
    {
        match self.starts.get(s) {
            Some(start) => *start,
            None => self.edges.len() as u32,
        }
    }

    /// The first arc out of a state; `None` exactly where there is none.
    pub fn head_out(&self, s: StateId) -> Option<EdgeId>
        ensures { IsFirstPlace (IsOutOf self.now.edges s) 0 (length self.now.edges) result }
    {
        let low = self.start(s.0 as usize);
        let high = self.start(s.0 as usize + 1);
        if low < high { Some(EdgeId(low)) } else { None }
    }

    /// The next arc out of the same state; `None` exactly where there is no further one.
    pub fn next_out(&self, k: EdgeId) -> Option<EdgeId>
        requires { k < length self.now.edges }
        ensures { let from = (edge_at self.now.edges k).from in
            IsFirstPlace (IsOutOf self.now.edges from) (k + 1) (length self.now.edges) result }
    {
        let source = self.edges[k.0 as usize].from;
        let next = k.0 + 1;
        let high = self.start(source.0 as usize + 1);
        if next < high {
            Some(EdgeId(next))
        } else {
            None
        }
    }

    /// The first arc into a state; `None` exactly where there is none.
    pub fn head_in(&self, t: StateId) -> Option<EdgeId>
        ensures { IsFirstPlace (IsInto self.now.edges t) 0 (length self.now.edges) result }
    {
        self.at(self.into.head(t))
    }

    /// The next arc into the same state; `None` exactly at the end of the chain.
    pub fn next_in(&self, k: EdgeId) -> Option<EdgeId>
        requires { k < length self.now.edges }
        ensures { let to = (edge_at self.now.edges k).to in
            IsFirstPlace (IsInto self.now.edges to) (k + 1) (length self.now.edges) result }
    {
        self.at(self.into.next(k.0))
    }

    /// The arc at a place, or `None` for the end.
    fn at(&self, place: u32) -> Option<EdgeId>
        ensures { MatchOption result (length self.now.edges ≤ place)
            (λ k. (k ≡ place) × (k < length self.now.edges)) }
    {
        if (place as usize) < self.edges.len() {
            Some(EdgeId(place))
        } else {
            None
        }
    }
}

/// Where the arcs out of each state start, and where the last ones end.
fn starts_of(alloc: Global, states: u32, arcs: &[Edge]) -> Result<Vec<u32>, NoMemory>
    requires few { length arcs.now < 2 ^ 32 }
    requires ordered { IsStrictlySortedBy edge_cmp arcs.now }
    ensures { IfOk result (λ starts. AreStarts states arcs.now starts.items) }
{
    let mut starts = Vec::with_capacity(alloc, states as usize + 1)?;
    let mut start = 0;
    for s in 0..states as usize + 1 {
        start = start_from(arcs, start, s);
        starts.push(start as u32)?;
    }
    Ok(starts)
}

/// Where the arcs out of state `s` start, where those before `low` leave states below it.
fn start_from(arcs: &[Edge], low: usize, s: usize) -> usize
    requires ordered { IsStrictlySortedBy edge_cmp arcs.now }
    requires below { AreBelow arcs.now s low }
    ensures { IsStart arcs.now s result }
{
    let mut place = low;
    while leaves_below(arcs, place, s) {
        place += 1;
    }
    place
}

/// Whether there is an arc at the place, and it leaves a state below `s`.
fn leaves_below(arcs: &[Edge], place: usize, s: usize) -> bool
    ensures { IsTrue result ↔ ((place < length arcs.now) × ((edge_at arcs.now place).from < s)) }
{
    match arcs.get(place) {
        Some(arc) => (arc.from.0 as usize) < s,
        None => false,
    }
}
