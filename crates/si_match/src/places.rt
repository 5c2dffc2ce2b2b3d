//! Signals at places, and which truth tables over the places have the next values of a signal.

ghost use Rattle.std.specs.Prelude.{◌≡◌, ℕ, ◌<◌, ◌≤◌, ◌∷◌, ◌⊎◌, Bool, All, Contains};
ghost use Rattle.std.specs.Prelude.{IfSome, IfNone, if◌then◌else◌, length};
ghost use Rattle.std.specs.Prelude.{true, false};
ghost use Rattle.si_base.specs.Bits.{IsSet, bit};
ghost use Rattle.si_base.specs.Codes.{code, next_value};
ghost use Rattle.si_base.specs.Limits.{code_width};
ghost use Rattle.si_cell.specs.Limits.{max_pins, table_codes};
ghost use Rattle.si_match.specs.Loops.Places as spec;
ghost use Rattle.si_match.specs.Loops.Places.{Agrees, AgreesAt, AreSeen, Differs};

use crate::rows::values_at;
use crate::state::add_witness;
use crate::triggers::MAX_WITNESSES;
use arrayvec::ArrayVec;
use si_base::ids::{Code, Sig, StateId};
use si_graph::coded::Coded;

/// The values of the places that were seen at states where a signal has the next value 1, and
/// those where it has 0: bit m is 1 where the values are those of the code m. So they can be
/// compared with a truth table over the places, which has a bit for each code too.
#[derive(Clone, Copy)]
pub(crate) struct Seen {
    pub(crate) on: u32,
    pub(crate) off: u32,
}

impl Seen {
    /// Before all states.
    pub(crate) fn none() -> Seen
        ensures { (result.on ≡ 0) × (result.off ≡ 0) }
    {
        Seen { on: 0, off: 0 }
    }
}

/// Of the values that were seen, those with the other next value.
pub(crate) fn opposite(on: u32, off: u32, next: bool) -> u32
    ensures { result ≡ (if next then off else on) }
{
    if next { off } else { on }
}

/// The values at the code of `z`, which stands first, and of the chosen signals.
pub(crate) fn placed_code(z: Sig, chosen: &[u8], code: Code) -> u8
    requires signal { z < code_width }
    requires few { length chosen.now ≤ max_pins }
    requires signals { All (λ y. y < code_width) chosen.now }
    ensures value { result ≡ spec.placed_code (z ∷ chosen.now) code }
    ensures small { result < table_codes }
{
    u8::from(code.get(z)) + 2 * values_at(chosen, code) as u8
}

/// The value of the table where the places have these values, or whether the set has the values.
pub(crate) fn table_value(table: u32, values: u8) -> bool
    requires { values < table_codes }
    ensures { result ≡ bit table values }
{
    table >> values & 1 == 1
}

/// The set, with these values of the places in it.
fn with_values(set: u32, values: u8) -> u32
    requires { values < table_codes }
    ensures { IsSet set values true result }
{
    set | 1 << values
}

/// What was seen, and the values and the next value at one more state.
pub(crate) fn with_state(coded: &Coded, z: Sig, chosen: &[u8], s: StateId, seen: Seen) -> Seen
    requires state { s < coded.now.graph.states }
    requires signal { z < length coded.now.graph.signals }
    requires width { length coded.now.graph.signals ≤ code_width }
    requires few { length chosen.now ≤ max_pins }
    requires signals { All (λ y. y < code_width) chosen.now }
    requires seen { AreSeen coded.now z chosen.now seen }
    ensures seen { AreSeen coded.now z chosen.now result }
    ensures there { let place = spec.placed_code (z ∷ chosen.now) (code coded.now s) in
        bit (spec.places_with result (next_value coded.now s z)) place ≡ true }
    ensures kept { (next : Bool) (m : ℕ) → bit (spec.places_with seen next) m ≡ true
        → bit (spec.places_with result next) m ≡ true }
{
    let values = placed_code(z, chosen, coded.code(s));
    if coded.next_value(s, z) {
        Seen {
            on: with_values(seen.on, values),
            off: seen.off,
        }
    } else {
        Seen {
            on: seen.on,
            off: with_values(seen.off, values),
        }
    }
}

/// What is seen at these states, up to a clash.
fn seen_at(coded: &Coded, z: Sig, chosen: &[u8], states: &[u32]) -> Seen
    requires signal { z < length coded.now.graph.signals }
    requires width { length coded.now.graph.signals ≤ code_width }
    requires few { length chosen.now ≤ max_pins }
    requires signals { All (λ y. y < code_width) chosen.now }
    requires states { All (λ s. s < coded.now.graph.states) states.now }
    ensures { AreSeen coded.now z chosen.now result }
{
    let mut seen = Seen::none();
    for state in states {
        if clash(seen.on, seen.off) {
            return seen;
        }
        seen = with_state(coded, z, chosen, StateId(*state), seen);
    }
    seen
}

/// Whether some values were seen with both next values, so that no table has them.
fn clash(on: u32, off: u32) -> bool
    ensures { result ≡ true → (m : ℕ) × (bit on m ≡ true) × (bit off m ≡ true) }
{
    on & off != 0
}

/// Whether the table has the next values that were seen.
fn allows(on: u32, off: u32, table: u32) -> bool
    ensures { result ≡ false → (m : ℕ)
        × (((bit table m ≡ true) × (bit off m ≡ true))
        ⊎ ((bit table m ≡ false) × (bit on m ≡ true))) }
{
    (on | off) & (on ^ table) == 0
}

/// The first state at which the table, where `z` stands first and then the chosen signals, hasn't
/// the next value of `z`.
fn first_differing(coded: &Coded, z: Sig, chosen: &[u8], table: u32) -> Option<u32>
    requires signal { z < length coded.now.graph.signals }
    requires width { length coded.now.graph.signals ≤ code_width }
    requires few { length chosen.now ≤ max_pins }
    requires signals { All (λ y. y < code_width) chosen.now }
    ensures some { IfSome result (λ s. (s < coded.now.graph.states)
        × (AgreesAt coded.now z chosen.now table s → ⊥)) }
    ensures none { IfNone result (Agrees coded.now z chosen.now table) }
{
    for s in 0..coded.graph().states() {
        let values = placed_code(z, chosen, coded.code(StateId(s)));
        if table_value(table, values) != coded.next_value(StateId(s), z) {
            return Some(s);
        }
    }
    None
}

/// Whether one of the tables has the next value of `z` at every state, where `z` stands first and
/// then the chosen signals. States at which a table hasn't join the witnesses, as far as there is
/// room.
pub fn some_table_agrees(
    coded: &Coded,
    z: Sig,
    chosen: &[u8],
    tables: &[u32],
    witnesses: &mut ArrayVec<u32, MAX_WITNESSES>,
) -> bool
    requires signal { z < length coded.now.graph.signals }
    requires width { length coded.now.graph.signals ≤ code_width }
    requires few { length chosen.now ≤ max_pins }
    requires signals { All (λ y. y < code_width) chosen.now }
    requires witnesses { All (λ s. s < coded.now.graph.states) witnesses.old.items }
    ensures some { result ≡ true
        → (t : ℕ) × Contains tables.now t × Agrees coded.now z chosen.now t }
    ensures none { result ≡ false → All (Differs coded.now z chosen.now) tables.now }
    ensures witnesses { All (λ s. s < coded.now.graph.states) witnesses.new.items }
{
    let mut seen = seen_at(coded, z, chosen, witnesses.as_slice());
    if clash(seen.on, seen.off) {
        return false;
    }
    for table in tables {
        if !allows(seen.on, seen.off, *table) {
            continue;
        }
        let Some(state) = first_differing(coded, z, chosen, *table) else {
            return true;
        };
        add_witness(witnesses, state);
        seen = with_state(coded, z, chosen, StateId(state), seen);
    }
    false
}
