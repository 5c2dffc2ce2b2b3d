//! On which side of a block each state lies, along a tree of arcs, and the classes that the sides
//! of two blocks tell.

ghost use Rattle.std.specs.Prelude.{◌≡◌, ℕ, ◌<◌, IfOk, length};
ghost use Rattle.si_base.specs.Bits.{bit};
ghost use Rattle.si_base.specs.Sets.{IsIn};
ghost use Rattle.si_closures.specs.Loops.WordSearch.{column};
ghost use Rattle.si_candidates.specs.Loops.Sides as of_sides;
ghost use Rattle.si_candidates.specs.Loops.Sides.{AreSides, between, side_after};
ghost use Rattle.si_candidates.specs.Loops.Tree.{IsTree};

use crate::tree::Link;
use si_base::ids::{NoMemory, StateId};
use si_base::sets::StateSet;
use si_checks::proper::Proper;
use si_insert::partition::Class;
use std::alloc::Global;

/// The states on the other side of the block than the start: on the way to them along the tree the
/// block is left an odd number of times. It fails only where memory runs out.
pub fn sides(
    alloc: Global,
    graph: &Proper,
    tree: &[Link],
    set: &StateSet,
) -> Result<StateSet, NoMemory>
    requires tree { IsTree graph.now.graph tree.now }
    requires size { length set.now ≡ graph.now.graph.states }
    ensures { IfOk result (AreSides graph.now.graph tree.now set.now) }
{
    let g = graph.coded().graph();
    let mut sides = StateSet::new(alloc, g.states())?;
    for link in tree {
        if differ(sides.has(link.from), leaves(set, link)) {
            sides.add(link.to);
        }
    }
    Ok(sides)
}

/// The sides of 128 sets at once: bit k of a state's word says whether set k has the state, and of
/// the result whether the state is on the other side of that set than the start. It fails only
/// where memory runs out.
pub fn sides_of_words(
    alloc: Global,
    graph: &Proper,
    tree: &[Link],
    words: &[u128],
) -> Result<Vec<u128>, NoMemory>
    requires tree { IsTree graph.now.graph tree.now }
    requires size { length words.now ≡ graph.now.graph.states }
    ensures size { IfOk result (λ sides. length sides.items ≡ graph.now.graph.states) }
    ensures sides { IfOk result (λ sides. (k : ℕ) → k < 128
        → AreSides graph.now.graph tree.now (column k words.now) (column k sides.items)) }
{
    let g = graph.coded().graph();
    let mut sides = vec![in alloc; 0; g.states() as usize]?;
    for link in tree {
        sides[link.to.0 as usize] = side_behind(&sides, words, link);
    }
    Ok(sides)
}

/// For each set the side of the state to which the link leads.
fn side_behind(sides: &[u128], words: &[u128], link: &Link) -> u128
    requires sides { link.now.from < length sides.now }
    requires from { link.now.from < length words.now }
    requires to { link.now.to < length words.now }
    ensures { (k : ℕ) → k < 128 → bit result k
        ≡ side_after (column k words.now) (column k sides.now) link.now }
{
    let from = link.from.0 as usize;
    let to = link.to.0 as usize;
    sides[from] ^ words[from] & !words[to]
}

/// Whether the link leads out of the set.
fn leaves(set: &StateSet, link: &Link) -> bool
    requires from { link.now.from < length set.now }
    requires to { link.now.to < length set.now }
    ensures { result ≡ of_sides.leaves set.now link.now.from link.now.to }
{
    set.has(link.from) && !set.has(link.to)
}

/// Whether it is one of the two, and not both.
pub fn differ(x: bool, y: bool) -> bool
    ensures { result ≡ of_sides.differ x y }
{
    x != y
}

/// Whether the state lies on different sides of two blocks, of which these are the sides.
pub fn is_between(plus_sides: &StateSet, minus_sides: &StateSet, s: StateId) -> bool
    requires plus { s < length plus_sides.now }
    requires minus { s < length minus_sides.now }
    ensures { result ≡ between plus_sides.now minus_sides.now s }
{
    differ(plus_sides.has(s), minus_sides.has(s))
}

/// The first state of a set that has one.
pub fn first_of(set: &StateSet) -> StateId
    requires { (s : ℕ) × IsIn set.now s }
    ensures there { IsIn set.now result }
    ensures within { result < length set.now }
{
    match set.first_from(StateId(0)) {
        Some(s) => s,
        None => unreachable!(),
    }
}

/// The class of a state by whether the new signal rises there, or falls there, and by its value on
/// the way there.
pub fn class_by(rises: bool, falls: bool, value: bool) -> Class
    ensures { result ≡ of_sides.class_by rises falls value }
{
    match (rises, falls, value) {
        (true, _, _) => Class::Rising,
        (false, true, _) => Class::Falling,
        (false, false, true) => Class::High,
        (false, false, false) => Class::Low,
    }
}
