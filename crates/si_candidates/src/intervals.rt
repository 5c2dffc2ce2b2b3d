//! Many intervals at once, each from a set of its own up to an event of its own.

ghost use Rattle.std.specs.Prelude.{◌≡◌, ◌≤◌, ◌<◌, ◌+◌, ◌++◌, ℕ, true, [], ◌↔◌, ◌⊎◌};
ghost use Rattle.std.specs.Prelude.{IfOk, OnOk, All, Contains, length};
ghost use Rattle.si_base.specs.declared.ids.Event.{Event};
ghost use Rattle.si_base.specs.Bits.{bit};
ghost use Rattle.si_closures.specs.Loops.WordSearch.{column, HasBit};
ghost use Rattle.si_closures.specs.Loops.Words.{IsEventAt};
ghost use Rattle.si_candidates.specs.Loops.Asked.{asked_for, asks_from, AreReady};
ghost use Rattle.si_candidates.specs.Blocks.{state_set};
ghost use Rattle.si_candidates.specs.Interval.{IsInterval};

use si_base::ids::{Event, NoMemory, StateId};
use si_checks::proper::Proper;
use si_closures::word_search::closures;
use si_closures::words::{SETS, all_but, everywhere};
use std::alloc::Global;

/// Intervals that are asked for, at most 128 of them. The one at k begins at the states whose words
/// have bit k, and leads up to the event at k.
#[derive(Drop)]
pub(crate) struct Asked {
    pub(crate) seeds: Vec<u128>,
    pub(crate) stops: Vec<Event>,
}

impl Asked {
    /// No interval is asked for yet, in a graph of so many states. It fails only where memory runs
    /// out.
    pub(crate) fn new(alloc: Global, states: u32) -> Result<Asked, NoMemory>
        ensures none { IfOk result (λ a. a.stops.items ≡ []) }
        ensures ready { IfOk result (λ a. AreReady states a.seeds.items a.stops.items) }
    {
        Ok(Asked {
            seeds: vec![in alloc; 0; states as usize]?,
            stops: Vec::new(alloc),
        })
    }

    /// How many more can be asked for.
    pub(crate) fn room(&self) -> usize
        requires { length self.now.stops.items ≤ 128 }
        ensures { result + length self.now.stops.items ≡ 128 }
    {
        SETS - self.stops.len()
    }

    /// Asks for the intervals from these states up to each of the events, too. It fails only where
    /// memory runs out.
    pub(crate) fn add(&mut self, from: &[StateId], stops: &[Event]) -> Result<(), NoMemory>
        requires from { All (λ s. s < length self.old.seeds.items) from.now }
        requires room { length self.old.stops.items + length stops.now ≤ 128 }
        requires ready { AreReady (length self.old.seeds.items)
            self.old.seeds.items self.old.stops.items }
        ensures ready { OnOk result (AreReady (length self.old.seeds.items)
            self.new.seeds.items self.new.stops.items) }
        ensures stops { OnOk result (self.new.stops.items ≡ self.old.stops.items ++ stops.now) }
        ensures asks { OnOk result (asked_for self.new.seeds.items self.new.stops.items
            ≡ asked_for self.old.seeds.items self.old.stops.items
            ++ asks_from (state_set (length self.old.seeds.items) from.now) stops.now) }
    {
        let bits = bits_from(self.stops.len(), stops.len());
        give(self.seeds.as_mut_slice(), from, bits);
        self.stops.extend_from_slice(stops)?;
        Ok(())
    }

    /// None is asked for any more.
    pub(crate) fn clear(&mut self)
        ensures none { self.new.stops.items ≡ [] }
        ensures ready { AreReady (length self.old.seeds.items)
            self.new.seeds.items self.new.stops.items }
    {
        self.stops.clear();
        forget_all(self.seeds.as_mut_slice());
    }

    /// The intervals: bit k of a state's word says whether the one at k has the state. It fails
    /// only where memory runs out.
    pub(crate) fn intervals(&self, alloc: Global, graph: &Proper) -> Result<Vec<u128>, NoMemory>
        requires size { length self.now.seeds.items ≡ graph.now.graph.states }
        requires few { length self.now.stops.items ≤ 128 }
        requires within { All (λ e. e.sig < length graph.now.graph.signals) self.now.stops.items }
        ensures size { IfOk result (λ words. length words.items ≡ graph.now.graph.states) }
        ensures intervals { IfOk result (λ words. (k : ℕ) (stop : Event)
            → IsEventAt self.now.stops.items k stop → IsInterval graph.now.graph
            (column k self.now.seeds.items) stop (column k words.items)) }
    {
        let g = graph.coded().graph();
        let passes = all_but(alloc, g.signals().len(), self.stops.as_slice())?;
        let within = everywhere(alloc, g.states())?;
        let words = closures(alloc, g, &passes, &within, self.seeds.as_slice())?;
        Ok(words)
    }
}

/// The word with so many bits, from the first on.
fn bits_from(first: usize, count: usize) -> u128
    requires { first + count ≤ 128 }
    ensures { (k : ℕ) → k < 128 → (bit result k ≡ true) ↔ ((first ≤ k) × (k < first + count)) }
{
    let mut bits = 0;
    for k in first..first + count {
        bits |= 1 << k;
    }
    bits
}

/// Gives the states the bits.
fn give(words: &mut [u128], states: &[StateId], bits: u128)
    requires { All (λ s. s < length words.old) states.now }
    ensures size { length words.new ≡ length words.old }
    ensures each { (k s : ℕ) → HasBit words.new k s
        ↔ (HasBit words.old k s ⊎ ((bit bits k ≡ true) × Contains states.now s)) }
{
    for s in states {
        words[s.0 as usize] |= bits;
    }
}

/// Takes all bits back.
fn forget_all(words: &mut [u128])
    ensures size { length words.new ≡ length words.old }
    ensures none { (k s : ℕ) → HasBit words.new k s → ⊥ }
{
    for s in 0..words.len() {
        words[s] = 0;
    }
}
