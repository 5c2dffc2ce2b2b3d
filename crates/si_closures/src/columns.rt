//! The sets of words.

ghost use Rattle.std.specs.Prelude.{◌≡◌, ℕ, ◌≤◌, ◌<◌, [], IfOk, length, slice_index_or};
ghost use Rattle.si_closures.specs.Loops.WordSearch.{column};

use crate::set_rows::SetRows;
use si_base::ids::NoMemory;
use si_base::sets::StateSet;
use std::alloc::Global;

/// The first sets of the words, so many of them, in a graph of so many states. It fails only where
/// memory runs out.
pub fn sets_of_words(
    alloc: Global,
    words: &[u128],
    states: u32,
    count: usize,
) -> Result<Vec<StateSet>, NoMemory>
    requires size { length words.now ≡ states }
    requires few { count ≤ 128 }
    ensures count { IfOk result (λ sets. length sets.items ≡ count) }
    ensures each { IfOk result (λ sets. (k : ℕ) → k < count
        → slice_index_or sets.items k [] ≡ column k words.now) }
{
    let rows = SetRows::of_words(alloc, states, words)?;
    let mut sets = Vec::new(alloc);
    for k in 0..count {
        sets.push(rows.set(alloc, k)?)?;
    }
    Ok(sets)
}
