//! Where a cell that reads a new signal hasn't the next value of another one: the values that its
//! places have at states, and truth tables over them.

ghost use Rattle.std.specs.Prelude.{◌≡◌, ℕ, ◌<◌, ◌≤◌, ◌+◌, ◌⊎◌, ◌↔◌, ◌++◌, ◌∷◌, [], List, Bool};
ghost use Rattle.std.specs.Prelude.{All, Contains, IfOk, IsTrue, length, not, slice_index_or};
ghost use Rattle.std.specs.Prelude.{true, false};
ghost use Rattle.si_base.specs.Bits.{IsSet, bit};
ghost use Rattle.si_base.specs.Limits.{code_width};
ghost use Rattle.si_cell.specs.Library.{code_of};
ghost use Rattle.si_cell.specs.Limits.{table_codes};
ghost use Rattle.si_bounds.specs.Loops.Points as spec;
ghost use Rattle.si_bounds.specs.Loops.Points.{AreMissed, AreMissedWhere, ArePoints, AreSmall};
ghost use Rattle.si_bounds.specs.Loops.Points.{Clashes, IsBlind, IsMissedByOne};
ghost use Rattle.si_bounds.specs.Loops.Points.{IsMissedTold, MissesLess, SomeMissLess};

use si_base::ids::{Code, NoMemory, Sig, StateId};
use si_graph::coded::Coded;
use std::alloc::Global;

/// The signals at the places between that of the signal that a gate drives, the first, and that of
/// a new one, the last.
#[derive(Clone, Copy)]
pub(crate) struct Places {
    first: Sig,
    second: Sig,
    third: Sig,
}

/// The chosen signal of that number, and `z` where there are fewer.
fn chosen_or(z: Sig, chosen: &[u8], number: usize) -> Sig
    ensures { result ≡ slice_index_or chosen.now number z }
{
    if number < chosen.len() {
        Sig(chosen[number])
    } else {
        z
    }
}

/// The chosen signals at the first places, and `z` at the others.
pub(crate) fn places_of(z: Sig, chosen: &[u8]) -> Places
    ensures { result ≡ spec.places_of z chosen.now }
{
    Places {
        first: chosen_or(z, chosen, 0),
        second: chosen_or(z, chosen, 1),
        third: chosen_or(z, chosen, 2),
    }
}

/// The values of `z`, of the signals at the places between, and of the last place, as a code of the
/// places.
fn with_last(z: Sig, places: &Places, code: Code, last: bool) -> u8
    requires own { z < code_width }
    requires places { AreSmall code_width places.now }
    ensures value { result ≡ spec.with_last z places.now code last }
    ensures small { result < table_codes }
{
    let own = u8::from(code.get(z));
    let first = u8::from(code.get(places.first));
    let second = u8::from(code.get(places.second));
    let third = u8::from(code.get(places.third));
    own + 2 * first + 4 * second + 8 * third + 16 * u8::from(last)
}

/// The points of all states, where the last place has the next value, and the set of them, with a
/// bit for each.
#[derive(Drop)]
pub(crate) struct Points {
    pub(crate) at: Vec<u8>,
    pub(crate) seen: u32,
}

/// The set, with this point in it.
fn with_point(set: u32, point: u8) -> u32
    requires { point < table_codes }
    ensures { IsSet set point true result }
{
    set | 1 << point
}

/// Whether the point is in the set.
pub(crate) fn has_point(set: u32, point: u8) -> bool
    requires { point < table_codes }
    ensures { result ≡ bit set point }
{
    set >> point & 1 == 1
}

/// The points of the states.
pub(crate) fn points_of(
    alloc: Global,
    coded: &Coded,
    z: Sig,
    places: &Places,
) -> Result<Points, NoMemory>
    requires own { z < length coded.now.graph.signals }
    requires places { AreSmall code_width places.now }
    ensures { IfOk result (ArePoints coded.now z places.now) }
{
    let mut at = Vec::new(alloc);
    let mut seen = 0;
    for s in 0..coded.graph().states() {
        let s = StateId(s);
        let point = with_last(z, places, coded.code(s), coded.next_value(s, z));
        at.push(point)?;
        seen = with_point(seen, point);
    }
    Ok(Points { at, seen })
}

/// The codes of the places at which the last one has the value 1.
const LAST: u32 = 0xffff_0000;

/// The table, where the new signal, at the last place, has that value at all codes.
fn with_new(table: u32, new: bool) -> u32
    ensures { (values : List Bool) (last : Bool) → length values ≡ 4
        → bit result (code_of (values ++ last ∷ [])) ≡ bit table (code_of (values ++ new ∷ [])) }
{
    if new {
        let up = table >> 16;
        up ^ (up ^ table) & LAST
    } else {
        table ^ (table ^ table << 16) & LAST
    }
}

/// The points that the table misses where the new signal has that value: the next value, at the
/// last place, isn't that of the table.
fn missed_where(table: u32, new: bool) -> u32
    ensures { AreMissedWhere table new result }
{
    with_new(table, new) ^ LAST
}

/// The points that a cell misses where a new signal, which it reads, is 0, and where it is 1. It
/// fits if the new signal is 1 at all states of the former, and 0 at all of the latter.
#[derive(Clone, Copy)]
pub(crate) struct Missed {
    pub(crate) at_zero: u32,
    pub(crate) at_one: u32,
}

/// Those of the points that the table misses.
fn missed_by(table: u32, seen: u32) -> Missed
    ensures { AreMissed table seen result }
{
    Missed {
        at_zero: seen & missed_where(table, false),
        at_one: seen & missed_where(table, true),
    }
}

/// Whether some point is missed at both values.
fn clashes(missed: &Missed) -> bool
    ensures { IsTrue result ↔ Clashes missed.now }
{
    missed.at_zero & missed.at_one != 0
}

/// Whether the one misses no more points than the other.
fn misses_less(one: &Missed, other: &Missed) -> bool
    ensures { IsTrue result ↔ MissesLess one.now other.now }
{
    one.at_zero | other.at_zero == other.at_zero && one.at_one | other.at_one == other.at_one
}

/// Whether one of these misses no more points.
fn is_beaten(least: &[Missed], missed: &Missed) -> bool
    ensures { IsTrue result ↔ SomeMissLess least.now missed.now }
{
    for less in least {
        if misses_less(less, missed) {
            return true;
        }
    }
    false
}

/// Whether some point is missed at both values, or one of these misses no more points.
fn adds_nothing(least: &[Missed], missed: &Missed) -> bool
    ensures { IsTrue result ↔ (Clashes missed.now ⊎ SomeMissLess least.now missed.now) }
{
    clashes(missed) || is_beaten(least, missed)
}

/// What the tables miss of these points: that of each table, unless it misses some point at both
/// values, or one before it misses no more.
pub(crate) fn least_missed(
    alloc: Global,
    tables: &[u32],
    seen: u32,
) -> Result<Vec<Missed>, NoMemory>
    ensures told { IfOk result (λ least. (t : ℕ) → Contains tables.now t
        → IsMissedTold t seen least.items) }
    ensures no_more { IfOk result (λ least. All (IsMissedByOne tables.now seen) least.items) }
{
    let mut least = Vec::new(alloc);
    for table in tables {
        let missed = missed_by(*table, seen);
        if adds_nothing(&least, &missed) {
            continue;
        }
        least.push(missed)?;
    }
    Ok(least)
}

/// Whether the table's value changes from one of these codes to that which lies so far above it.
fn changes(table: u32, above: u32, codes: u32) -> bool
    requires { above < 32 }
    ensures { result ≡ false → (m : ℕ) → bit codes m ≡ true → bit table m ≡ bit table (m + above) }
{
    (table ^ table >> above) & codes != 0
}

/// Whether the table's value depends on the place. It is compared from each code at which the place
/// has the value 0 to that at which it has 1.
fn reads(table: u32, place: usize) -> bool
    requires low { 1 ≤ place }
    requires high { place ≤ 3 }
    ensures { result ≡ false → IsBlind table place }
{
    match place {
        1 => changes(table, 2, 0x3333_3333),
        2 => changes(table, 4, 0x0f0f_0f0f),
        _ => changes(table, 8, 0x00ff_00ff),
    }
}

/// Those of the tables that read the place.
pub(crate) fn reading(alloc: Global, tables: &[u32], place: usize) -> Result<Vec<u32>, NoMemory>
    requires low { 1 ≤ place }
    requires high { place ≤ 3 }
    ensures within { IfOk result (λ read. (t : ℕ) → Contains read.items t → Contains tables.now t) }
    ensures others { IfOk result (λ read. (t : ℕ) → Contains tables.now t
        → Contains read.items t ⊎ IsBlind t place) }
{
    let mut read = Vec::new(alloc);
    for table in tables {
        if !reads(*table, place) {
            continue;
        }
        read.push(*table)?;
    }
    Ok(read)
}
