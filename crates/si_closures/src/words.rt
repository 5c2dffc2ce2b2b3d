//! Words for states or events, bit k of which is that of the set k.

ghost use Rattle.std.specs.Prelude.{◌≡◌, ◌≢◌, ◌≤◌, ◌<◌, ◌*◌, ◌↔◌, ℕ, IfOk, All, length};
ghost use Rattle.si_base.specs.declared.ids.Event.{Event};
ghost use Rattle.si_base.specs.Bits.{bit};
ghost use Rattle.si_base.specs.Graph.{event_place};
ghost use Rattle.si_closures.specs.Loops.WordSearch.{column, Passes};
ghost use Rattle.si_closures.specs.Loops.Words.{HasAll, IsEventAt};

use si_base::ids::{Event, NoMemory, StateId};
use si_base::sets::StateSet;
use std::alloc::Global;

/// How many sets the bits of a word stand for.
pub const SETS: usize = 128;

/// The words by which each set has all of so many states. It fails only where memory runs out.
pub fn everywhere(alloc: Global, states: u32) -> Result<Vec<u128>, NoMemory>
    ensures { IfOk result (λ words. HasAll states words.items) }
{
    let words = vec![in alloc; u128::MAX; states as usize]?;
    Ok(words)
}

/// The words for the events of so many signals, by which the set k passes each event but the one
/// at k. It fails only where memory runs out.
pub fn all_but(alloc: Global, signals: usize, stops: &[Event]) -> Result<Vec<u128>, NoMemory>
    requires signals { signals ≤ 128 }
    requires few { length stops.now ≤ 128 }
    requires within { All (λ e. e.sig < signals) stops.now }
    ensures size { IfOk result (λ words. length words.items ≡ 2 * signals) }
    ensures passes { IfOk result (λ words. (k : ℕ) (stop e : Event) → IsEventAt stops.now k stop
        → e.sig < signals → Passes words.items k e ↔ (e ≢ stop)) }
{
    let mut words = vec![in alloc; u128::MAX; 2 * signals]?;
    for k in 0..stops.len() {
        let at = place(&stops[k]);
        words[at] &= !(1 << k);
    }
    Ok(words)
}

/// The set k of the words, which are for so many states. It fails only where memory runs out.
pub fn set_at(alloc: Global, words: &[u128], states: u32, k: u32) -> Result<StateSet, NoMemory>
    requires size { length words.now ≡ states }
    requires few { k < 128 }
    ensures { IfOk result (λ set. set ≡ column k words.now) }
{
    let mut set = StateSet::new(alloc, states)?;
    for s in 0..states {
        if has_bit(words[s as usize], k) {
            set.add(StateId(s));
        }
    }
    Ok(set)
}

/// Whether the word has the bit.
pub fn has_bit(word: u128, k: u32) -> bool
    requires { k < 128 }
    ensures { result ≡ bit word k }
{
    word >> k & 1 == 1
}

/// The place of the event among all events.
pub fn place(e: &Event) -> usize
    ensures { result ≡ event_place e.now }
{
    let rising = 2 * e.sig.0 as usize;
    if e.up { rising } else { rising + 1 }
}
