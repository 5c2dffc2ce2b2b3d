//! How blocks lie to the states of conflicts, and how many conflicts two blocks leave for certain.

ghost use Rattle.std.specs.Prelude.{◌≡◌, ◌<◌, ◌≤◌, ◌↔◌, IfOk, IsTrue, length, map};
ghost use Rattle.si_conflicts.specs.Conflicts.{pairs_of};
ghost use Rattle.si_resolve.specs.Loops.Aspects as of_aspects;
ghost use Rattle.si_resolve.specs.Loops.Aspects.{AreWithin, aspect_by, aspect_of};

use si_base::ids::NoMemory;
use si_base::sets::StateSet;
use si_conflicts::conflicts::Pair;
use std::alloc::Global;
use std::marker::Model;

/// So many conflicts are counted before the count is compared: few enough for a byte, so that many
/// of them are counted in one step.
const CHUNK: usize = 64;

/// How a block lies to the two states of a conflict.
#[derive(Clone, Copy, PartialEq, Eq, Debug)]
pub(crate) enum Aspect {
    /// Neither is in the block, and both lie on one side of it.
    Together,
    /// Neither is in the block, and they lie on different sides of it.
    Apart,
    /// One of them is in the block, or both are.
    Touched,
}

/// The aspects of conflicts for one block, in their order.
#[derive(Drop)]
pub(crate) struct Column {
    aspects: Vec<Aspect>,
}

impl Model for Column {
    ghost use Rattle.std.specs.Prelude.{List};
    ghost use Rattle.si_resolve.specs.declared.aspects.Aspect.{Aspect};

    ghost Value = { List Aspect };

    ghost view = { λ c. c.aspects.items };
}

impl Column {
    ghost use Rattle.std.specs.Prelude.{[]};

    /// The column of no conflict.
    pub(crate) fn none(alloc: Global) -> Column
        ensures { result ≡ [] }
    {
        Column {
            aspects: Vec::new(alloc),
        }
    }

    /// The aspects of the conflicts for a block with these sides. It fails only where memory runs
    /// out.
    pub(crate) fn of(
        alloc: Global,
        set: &StateSet,
        sides: &StateSet,
        pairs: &[Pair],
    ) -> Result<Column, NoMemory>
        requires { AreWithin set.now sides.now pairs.now }
        ensures { IfOk result
            (λ c. c ≡ map (aspect_of set.now sides.now) (pairs_of pairs.now)) }
    {
        let mut aspects = Vec::new(alloc);
        for pair in pairs {
            aspects.push(aspect_for(set, sides, pair))?;
        }
        Ok(Column { aspects })
    }

    /// Whether the conflicts that the two blocks don't part are fewer than `bar`. It ends as soon
    /// as they aren't, and at once where there are fewer conflicts anyway.
    pub(crate) fn leaves_below(&self, other: &Column, bar: u64) -> bool
        requires { length other.now ≡ length self.now }
        ensures { IsTrue result ↔ (of_aspects.unparted_count self.now other.now < bar) }
    {
        if (self.aspects.len() as u64) < bar {
            return true;
        }
        are_below(self.aspects.as_slice(), other.aspects.as_slice(), bar)
    }
}

/// How the block lies to the states of a conflict.
fn aspect_for(set: &StateSet, sides: &StateSet, pair: &Pair) -> Aspect
    requires size { length sides.now ≡ length set.now }
    requires p { pair.now.p < length set.now }
    requires q { pair.now.q < length set.now }
    ensures { result ≡ aspect_of set.now sides.now (pair.now.p, pair.now.q) }
{
    aspect_of_flags(
        set.has(pair.p),
        set.has(pair.q),
        sides.has(pair.p),
        sides.has(pair.q),
    )
}

/// The same by whether the states are in the block, and by their sides.
fn aspect_of_flags(p: bool, q: bool, p_side: bool, q_side: bool) -> Aspect
    ensures { result ≡ aspect_by p q p_side q_side }
{
    match (p | q, p_side != q_side) {
        (true, _) => Aspect::Touched,
        (false, true) => Aspect::Apart,
        (false, false) => Aspect::Together,
    }
}

/// Whether the conflicts that two blocks with these aspects don't part are fewer than `bar`.
fn are_below(plus: &[Aspect], minus: &[Aspect], bar: u64) -> bool
    requires { length minus.now ≡ length plus.now }
    ensures { IsTrue result ↔ (of_aspects.unparted_count plus.now minus.now < bar) }
{
    let mut plus = plus;
    let mut minus = minus;
    let mut room = bar;
    while plus.len() > CHUNK {
        let (first_plus, later_plus) = plus.split_at(CHUNK);
        let (first_minus, later_minus) = minus.split_at(CHUNK);
        let left = unparted_count(first_plus, first_minus) as u64;
        if left >= room {
            return false;
        }
        room -= left;
        plus = later_plus;
        minus = later_minus;
    }
    (unparted_count(plus, minus) as u64) < room
}

/// How many of so few conflicts two blocks with these aspects don't part.
fn unparted_count(plus: &[Aspect], minus: &[Aspect]) -> u8
    requires count { length minus.now ≡ length plus.now }
    requires few { length plus.now ≤ 64 }
    ensures { result ≡ of_aspects.unparted_count plus.now minus.now }
{
    let mut left = 0;
    for k in 0..plus.len() {
        left += stays(plus[k], minus[k]);
    }
    left
}

/// 1 where the blocks don't part the states, else 0.
fn stays(plus: Aspect, minus: Aspect) -> u8
    ensures is { result ≡ of_aspects.stays_by plus minus }
    ensures few { result ≤ 1 }
{
    u8::from(!part(plus, minus))
}

/// Whether two blocks with these aspects part the states.
fn part(plus: Aspect, minus: Aspect) -> bool
    ensures { result ≡ of_aspects.part plus minus }
{
    (plus == Aspect::Together && minus == Aspect::Apart)
        || (plus == Aspect::Apart && minus == Aspect::Together)
}
