//! What a signal that no cell fits, and that never waits for a new one, needs of the classes of
//! states, so that some cell fits it afterwards: some states have to be High, and some Low.

ghost use Rattle.std.specs.Prelude.{◌≡◌, ℕ, ◌<◌, ◌≤◌, ◌+◌, ◌⊎◌, ◌↔◌, ◌∷◌, ◌++◌, [], List};
ghost use Rattle.std.specs.Prelude.{All, AllPairs, Contains, IfOk, IfSome, IsTrue, OnOk, length};
ghost use Rattle.std.specs.Prelude.{◌≢◌, true, false};
ghost use Rattle.si_base.specs.Bits.{bit};
ghost use Rattle.si_base.specs.Limits.{code_width, max_states};
ghost use Rattle.si_base.specs.Sets.{is_in};
ghost use Rattle.si_cell.specs.Limits.{table_codes};
ghost use Rattle.si_checks.specs.Loops.Lent.{coded_of};
ghost use Rattle.si_insert.specs.declared.partition.Class.{Class as ClassValue};
ghost use Rattle.si_match.specs.Loops.Rows.{AreSignals};
ghost use Rattle.si_bounds.specs.Loops.Needs.{AreNeeds, AreStable, AreStatesAt};
ghost use Rattle.si_bounds.specs.Loops.Needs.{AreToldOver, AskNoMore};
ghost use Rattle.si_bounds.specs.Loops.Needs.{AsksLess, AsksWithin, HasSize, IsNeedAt};
ghost use Rattle.si_bounds.specs.Loops.Needs.{IsNeedOfOne, IsTold, SomeAskLess, SomeIsMet};
ghost use Rattle.si_bounds.specs.Loops.Points.{IsBlind, places_of as placed};

use crate::least::most_pins;
use crate::points::{Missed, has_point, least_missed, places_of, points_of, reading};
use si_base::ids::{Code, NoMemory, Sig, StateId};
use si_base::sets::StateSet;
use si_checks::distinct::Distinct;
use si_graph::coded::Coded;
use si_insert::partition::Class;
use si_match::functions::LibraryFunctions;
use si_match::triggers::trigger_signals;
use std::alloc::Global;

/// The most needs of a signal that are kept.
const MAX_NEEDS: usize = 4096;

/// The most signals that are tried beside the triggers and the new signal.
const MAX_FURTHER: usize = 2;

/// What a cell needs of the classes so that it fits a signal: states that have to be High, where it
/// hasn't the next value while the new signal is 0, and states that have to be Low, where it hasn't
/// while that is 1.
#[derive(Drop)]
pub(crate) struct Need {
    pub(crate) high: StateSet,
    pub(crate) low: StateSet,
}

/// Whether the need asks no other states to be High than these, and no other to be Low than those.
fn asks_within(need: &Need, high: &StateSet, low: &StateSet) -> bool
    requires high { length need.now.high ≡ length high.now }
    requires low { length need.now.low ≡ length low.now }
    ensures { IsTrue result ↔ AsksWithin need.now (is_in high.now) (is_in low.now) }
{
    need.high.is_subset(high) && need.low.is_subset(low)
}

/// The High states of the classes, and the Low ones.
pub(crate) fn stable_states(
    alloc: Global,
    classes: &[Class],
) -> Result<(StateSet, StateSet), NoMemory>
    requires { length classes.now ≤ max_states }
    ensures { IfOk result (λ sets. AreStable classes.now sets.0 sets.1) }
{
    let mut high = StateSet::new(alloc, classes.len() as u32)?;
    let mut low = StateSet::new(alloc, classes.len() as u32)?;
    for s in 0..classes.len() {
        match classes[s] {
            Class::High => high.add(StateId(s as u32)),
            Class::Low => low.add(StateId(s as u32)),
            Class::Rising | Class::Falling => {}
        }
    }
    Ok((high, low))
}

/// Whether classes meet one of the needs, by the sets of their High and of their Low states.
pub(crate) fn may_fit(needs: &[Need], high: &StateSet, low: &StateSet) -> bool
    requires high { All (λ need. length need.high ≡ length high.now) needs.now }
    requires low { All (λ need. length need.low ≡ length low.now) needs.now }
    ensures { (classes : List ClassValue) → AreStable classes high.now low.now
        → IsTrue result ↔ SomeIsMet needs.now classes }
{
    for need in needs {
        if asks_within(need, high, low) {
            return true;
        }
    }
    false
}

/// The states whose points are in the set.
fn states_at(alloc: Global, points: &[u8], set: u32) -> Result<StateSet, NoMemory>
    requires few { length points.now ≤ max_states }
    requires small { All (λ m. m < table_codes) points.now }
    ensures { IfOk result (AreStatesAt points.now set) }
{
    let mut states = StateSet::new(alloc, points.len() as u32)?;
    for s in 0..points.len() {
        if !has_point(set, points[s]) {
            continue;
        }
        states.add(StateId(s as u32));
    }
    Ok(states)
}

/// The need of a cell that misses these points: each state where it misses while the new signal is
/// 0 has to be High, and each where it misses while that is 1 has to be Low.
fn need_at(alloc: Global, points: &[u8], missed: &Missed) -> Result<Need, NoMemory>
    requires few { length points.now ≤ max_states }
    requires small { All (λ m. m < table_codes) points.now }
    ensures { IfOk result (IsNeedAt points.now missed.now) }
{
    let high = states_at(alloc, points, missed.at_zero)?;
    let low = states_at(alloc, points, missed.at_one)?;
    Ok(Need { high, low })
}

/// Whether one of the needs asks no more.
fn is_beaten(needs: &[Need], need: &Need) -> bool
    requires high { All (λ other. length other.high ≡ length need.now.high) needs.now }
    requires low { All (λ other. length other.low ≡ length need.now.low) needs.now }
    ensures { IsTrue result ↔ SomeAskLess needs.now need.now }
{
    for other in needs {
        if asks_within(other, &need.high, &need.low) {
            return true;
        }
    }
    false
}

/// Takes away the needs that ask no less.
fn drop_beaten(needs: &mut Vec<Need>, need: &Need)
    requires high { All (λ other. length other.high ≡ length need.now.high) needs.old.items }
    requires low { All (λ other. length other.low ≡ length need.now.low) needs.old.items }
    ensures others { All (λ other. Contains needs.new.items other ⊎ AsksLess need.now other)
        needs.old.items }
    ensures no_more { All (Contains needs.old.items) needs.new.items }
{
    let mut k = 0;
    while k < needs.len() {
        if asks_within(need, &needs[k].high, &needs[k].low) {
            needs.swap_remove(k);
        } else {
            k += 1;
        }
    }
}

/// Adds the need, unless another one asks no more; those that ask no less are taken away.
fn add_need(needs: &mut Vec<Need>, need: Need) -> Result<(), NoMemory>
    requires high { All (λ other. length other.high ≡ length need.high) needs.old.items }
    requires low { All (λ other. length other.low ≡ length need.low) needs.old.items }
    ensures added { OnOk result (SomeAskLess needs.new.items need) }
    ensures kept { OnOk result (AskNoMore needs.new.items needs.old.items) }
    ensures no_more { OnOk result
        (All (λ other. Contains needs.old.items other ⊎ (other ≡ need)) needs.new.items) }
{
    if is_beaten(needs, &need) {
        return Ok(());
    }
    drop_beaten(needs, &need);
    needs.push(need)?;
    Ok(())
}

/// Adds what the tables need where `z`, the chosen signals and the new one stand at their places,
/// least needs alone. Answers whether there are few enough needs.
fn add_over(
    alloc: Global,
    coded: &Coded,
    z: Sig,
    tables: &[u32],
    chosen: &[u8],
    needs: &mut Vec<Need>,
) -> Result<bool, NoMemory>
    requires signal { z < length coded.now.graph.signals }
    requires chosen { All (λ y. y < length coded.now.graph.signals) chosen.now }
    requires sizes { All (HasSize coded.now.graph.states) needs.old.items }
    ensures told { OnOk result
        (All (IsTold coded.now z (placed z chosen.now) needs.new.items) tables.now) }
    ensures kept { OnOk result (AskNoMore needs.new.items needs.old.items) }
    ensures no_more { OnOk result
        (All (λ need. Contains needs.old.items need ⊎ IsNeedOfOne coded.now z tables.now need)
        needs.new.items) }
{
    let _given = coded.graph();
    let places = places_of(z, chosen);
    let points = points_of(alloc, coded, z, &places)?;
    let least = least_missed(alloc, tables, points.seen)?;
    for missed in &least {
        let need = need_at(alloc, &points.at, missed)?;
        add_need(needs, need)?;
    }
    Ok(needs.len() <= MAX_NEEDS)
}

/// The chosen signals and one more.
fn with_one(alloc: Global, chosen: &[u8], y: u8) -> Result<Vec<u8>, NoMemory>
    ensures { IfOk result (λ more. more.items ≡ chosen.now ++ y ∷ []) }
{
    let mut more = Vec::from_slice(alloc, chosen)?;
    more.push(y)?;
    Ok(more)
}

/// The tables of which one is chosen: all of them, or those that read a place.
fn chosen_tables<'a>(all: bool, tables: &'a [u32], read: &'a [u32]) -> &'a [u32]
    ensures all { all ≡ true → result.now ≡ tables.now }
    ensures read { all ≡ false → result.now ≡ read.now }
{
    if all { tables } else { read }
}

/// The same for all choices of so many further signals. A table that doesn't depend on the place of
/// a further signal is left to the choice where `z` stands there.
fn add_further(
    alloc: Global,
    coded: &Coded,
    z: Sig,
    tables: &[u32],
    chosen: &[u8],
    more: usize,
    needs: &mut Vec<Need>,
) -> Result<bool, NoMemory>
    requires signal { z < length coded.now.graph.signals }
    requires chosen { All (λ y. y < length coded.now.graph.signals) chosen.now }
    requires few { length chosen.now + more ≤ 3 }
    requires sizes { All (HasSize coded.now.graph.states) needs.old.items }
    ensures told { IfOk result (λ known. known ≡ true
        → AreToldOver coded.now z tables.now chosen.now more needs.new.items) }
    ensures kept { OnOk result (AskNoMore needs.new.items needs.old.items) }
    ensures no_more { OnOk result
        (All (λ need. Contains needs.old.items need ⊎ IsNeedOfOne coded.now z tables.now need)
        needs.new.items) }
{
    if more == 0 {
        return add_over(alloc, coded, z, tables, chosen, needs);
    }
    let read = reading(alloc, tables, chosen.len() + 1)?;
    for y in 0..coded.graph().signals().len() {
        let y = y as u8;
        let next = with_one(alloc, chosen, y)?;
        let those = chosen_tables(Sig(y) == z, tables, &read);
        if !add_further(alloc, coded, z, those, &next, more - 1, needs)? {
            return Ok(false);
        }
    }
    Ok(true)
}

/// The first `count` signals that are in the set, in their order.
fn signals_of(alloc: Global, set: Code, count: usize) -> Result<Vec<u8>, NoMemory>
    requires { count ≤ code_width }
    ensures signals { IfOk result (λ signals. AreSignals set count signals.items) }
    ensures once { IfOk result (λ signals. AllPairs (λ x y. x ≢ y) signals.items) }
{
    let mut signals = Vec::new(alloc);
    for i in 0..count {
        if !set.get(Sig(i as u8)) {
            continue;
        }
        signals.push(i as u8)?;
    }
    Ok(signals)
}

/// Those of the tables that read the first places, so many, behind that of the driven signal.
fn reading_all(alloc: Global, tables: &[u32], places: usize) -> Result<Vec<u32>, NoMemory>
    requires { places ≤ 3 }
    ensures within { IfOk result (λ read. (t : ℕ) → Contains read.items t → Contains tables.now t) }
    ensures others { IfOk result (λ read. (t : ℕ) → Contains tables.now t
        → Contains read.items t ⊎ ((k : ℕ) × (k < places) × IsBlind t (k + 1))) }
{
    let mut read = Vec::from_slice(alloc, tables)?;
    for k in 0..places {
        read = reading(alloc, &read, k + 1)?;
    }
    Ok(read)
}

/// What a signal that no cell fits needs of the classes, so that some cell fits it after an
/// insertion for which it never waits: one of these needs. It needs a cell that reads the new signal
/// and all triggers, so where these are too many, there is none. `None` where there are too many
/// needs, or too many signals to be tried beside the triggers; then nothing is known. It fails only
/// where memory runs out.
pub(crate) fn needs_of(
    alloc: Global,
    graph: Distinct<'_>,
    library: &LibraryFunctions<'_>,
    z: Sig,
) -> Result<Option<Vec<Need>>, NoMemory>
    requires { z < length (coded_of graph).graph.signals }
    ensures { IfOk result (λ told. IfSome told
        (λ needs. AreNeeds (coded_of graph.entry) library.now z needs.items)) }
{
    let coded = graph.proper().coded();
    let triggers = trigger_signals(graph, z);
    let chosen = signals_of(alloc, triggers, coded.graph().signals().len())?;
    let most = most_pins(library.library()) as usize;
    let mut needs = Vec::new(alloc);
    if chosen.len() >= most {
        return Ok(Some(needs));
    }
    let more = most - 1 - chosen.len();
    if more > MAX_FURTHER {
        return Ok(None);
    }
    let tables = reading_all(alloc, library.tables(), chosen.len())?;
    if add_further(alloc, coded, z, &tables, &chosen, more, &mut needs)? {
        Ok(Some(needs))
    } else {
        Ok(None)
    }
}
