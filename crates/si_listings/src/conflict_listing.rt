//! The text of the conflicts of a graph.

ghost use Rattle.std.specs.Prelude.{◌≡◌, ◌<◌, ◌++◌, IfOk, OnOk, All, length, map};
ghost use Rattle.si_base.specs.Words.{text_of};
ghost use Rattle.si_listings.specs.ConflictText.{IsConflictText, conflicts_text, pair_line};
ghost use Rattle.si_conflicts.specs.Conflicts.{pairs_of};

use si_base::ids::NoMemory;
use si_base::names::Names;
use si_base::text::Text;
use si_conflicts::conflicts::{Pair, conflicts, count};
use si_graph::coded::Coded;
use si_sg::write::name_at;
use si_words::writing::add_line;
use std::alloc::Global;

/// How many conflicts are printed at most.
const MAX_PRINTED: u32 = 1000;

/// The text of the conflicts of a graph with a name for each state. It fails only where memory runs
/// out.
pub fn list_conflicts(alloc: Global, graph: &Coded, states: &Names) -> Result<Text, NoMemory>
    requires { length states.now ≡ graph.now.graph.states }
    ensures { IfOk result (IsConflictText graph.now states.now) }
{
    let count = count(alloc, graph)?;
    let pairs = conflicts(alloc, graph, MAX_PRINTED)?;
    let text = write_conflicts(alloc, states, count, pairs.as_slice())?;
    Ok(text)
}

/// The text of the number of conflicts, and of these ones. It fails only where memory runs out.
pub fn write_conflicts(
    alloc: Global,
    states: &Names,
    count: u64,
    pairs: &[Pair],
) -> Result<Text, NoMemory>
    requires { All (λ x. (x.p < length states.now) × (x.q < length states.now)) pairs.now }
    ensures { IfOk result (λ text. text ≡ conflicts_text states.now count (pairs_of pairs.now)) }
{
    let Ok(number) = count.to_string(alloc) else {
        return Err(NoMemory);
    };
    let mut text = Text::copy_of(alloc, b"")?;
    add_line(&mut text, b"conflicts", &[number.as_bytes()])?;
    add_pairs(&mut text, states, pairs)?;
    Ok(text)
}

/// Adds a line for each pair.
fn add_pairs(text: &mut Text, states: &Names, pairs: &[Pair]) -> Result<(), NoMemory>
    requires { All (λ x. (x.p < length states.now) × (x.q < length states.now)) pairs.now }
    ensures { OnOk result
        (text.new ≡ text.old ++ text_of (map (pair_line states.now) (pairs_of pairs.now))) }
{
    for pair in pairs {
        add_line(text, name_at(states, pair.p), &[name_at(states, pair.q)])?;
    }
    Ok(())
}
