//! Signals by which two states are told apart that have different next values.

ghost use Rattle.std.specs.Prelude.{◌≡◌, ℕ, ◌<◌, ◌≤◌, ◌↔◌, ◌⊎◌, ◌∷◌, All, Contains};
ghost use Rattle.std.specs.Prelude.{IfSome, IfNone, Some, None, length, true, false};
ghost use Rattle.si_base.specs.Bits.{bit};
ghost use Rattle.si_base.specs.Limits.{code_width};
ghost use Rattle.si_cell.specs.Limits.{max_pins};
ghost use Rattle.si_match.specs.Loops.Apart.{AreApart, AreAlike, AllAlike, AllAlikeTo};
ghost use Rattle.si_match.specs.Loops.Apart.{AllAlikeAmong, AreCodesAmong, DifferAtRead};
ghost use Rattle.si_match.specs.Loops.Apart.{IsUnread, IsUnreadFromOne, few_states, max_witnesses};

use crate::codes::cut;
use crate::places::{Seen, opposite, placed_code, table_value, with_state};
use crate::state::add_witness;
use crate::triggers::MAX_WITNESSES;
use arrayvec::ArrayVec;
use si_base::ids::{Code, Sig, StateId};
use si_graph::coded::Coded;

/// The most states of a graph that are all looked at.
const FEW_STATES: u32 = 1024;

/// The signals at which two states differ that have different next values of `z`, but the same
/// values of `z` and the chosen signals, which are those in `read`. An instance that fits `z` reads
/// one of them. Of the witnesses it is a pair that differs at the fewest. Where no two of them are
/// such a pair, and the graph has few states, it is one of all states, and joins the witnesses, if
/// there is room.
pub fn told_apart(
    coded: &Coded,
    z: Sig,
    chosen: &[u8],
    read: Code,
    witnesses: &mut ArrayVec<u32, MAX_WITNESSES>,
) -> Option<Code>
    requires signal { z < length coded.now.graph.signals }
    requires width { length coded.now.graph.signals ≤ code_width }
    requires few { length chosen.now ≤ max_pins }
    requires signals { All (λ y. y < code_width) chosen.now }
    requires read { (y : ℕ) → Contains (z ∷ chosen.now) y ↔ (bit read y ≡ true) }
    requires witnesses { All (λ s. s < coded.now.graph.states) witnesses.old.items }
    ensures apart { IfSome result (AreApart coded.now z read) }
    ensures none { IfNone result (AllAlikeAmong coded.now z read witnesses.old.items) }
    ensures none_of_few { IfNone result
        (coded.now.graph.states ≤ few_states → AllAlike coded.now z read) }
    ensures witnesses { All (λ s. s < coded.now.graph.states) witnesses.new.items }
{
    let fewest = fewest_apart(coded, z, read, witnesses.as_slice());
    if fewest.is_some() || coded.graph().states() > FEW_STATES {
        return fewest;
    }
    first_apart(coded, z, chosen, read, witnesses)
}

/// The same of the first state of all that has to be told apart from one before it. Both join the
/// witnesses, if there is room.
fn first_apart(
    coded: &Coded,
    z: Sig,
    chosen: &[u8],
    read: Code,
    witnesses: &mut ArrayVec<u32, MAX_WITNESSES>,
) -> Option<Code>
    requires signal { z < length coded.now.graph.signals }
    requires width { length coded.now.graph.signals ≤ code_width }
    requires few { length chosen.now ≤ max_pins }
    requires signals { All (λ y. y < code_width) chosen.now }
    requires read { (y : ℕ) → Contains (z ∷ chosen.now) y ↔ (bit read y ≡ true) }
    requires witnesses { All (λ s. s < coded.now.graph.states) witnesses.old.items }
    ensures apart { IfSome result (AreApart coded.now z read) }
    ensures none { IfNone result (AllAlike coded.now z read) }
    ensures witnesses { All (λ s. s < coded.now.graph.states) witnesses.new.items }
{
    let mut seen = Seen::none();
    for s in 0..coded.graph().states() {
        let s = StateId(s);
        let values = placed_code(z, chosen, coded.code(s));
        let others = opposite(seen.on, seen.off, coded.next_value(s, z));
        if table_value(others, values) {
            return apart_from(coded, z, read, s, witnesses);
        }
        seen = with_state(coded, z, chosen, s, seen);
    }
    None
}

/// The signals at which the state differs from the first that it has to be told apart from. Both
/// join the witnesses, if there is room.
fn apart_from(
    coded: &Coded,
    z: Sig,
    read: Code,
    one: StateId,
    witnesses: &mut ArrayVec<u32, MAX_WITNESSES>,
) -> Option<Code>
    requires signal { z < length coded.now.graph.signals }
    requires width { length coded.now.graph.signals ≤ code_width }
    requires one { one < coded.now.graph.states }
    requires witnesses { All (λ s. s < coded.now.graph.states) witnesses.old.items }
    ensures apart { IfSome result (AreApart coded.now z read) }
    ensures none { IfNone result (AllAlikeTo coded.now z read one) }
    ensures witnesses { All (λ s. s < coded.now.graph.states) witnesses.new.items }
{
    for other in 0..coded.graph().states() {
        let found = differing(coded, z, read, one, StateId(other));
        if found.is_some() {
            add_witness(witnesses, one.0);
            add_witness(witnesses, other);
            return found;
        }
    }
    None
}

/// The same of a pair of these states alone. Of two states with different next values one has the
/// next value 1 and the other 0, so each code of the one kind meets each of the other.
fn fewest_apart(coded: &Coded, z: Sig, read: Code, states: &[u32]) -> Option<Code>
    requires signal { z < length coded.now.graph.signals }
    requires width { length coded.now.graph.signals ≤ code_width }
    requires few { length states.now ≤ max_witnesses }
    requires states { All (λ s. s < coded.now.graph.states) states.now }
    ensures apart { IfSome result (AreApart coded.now z read) }
    ensures none { IfNone result (AllAlikeAmong coded.now z read states.now) }
{
    let codes = codes_among(coded, z, states);
    let off = codes.off.as_slice();
    let mut fewest = None;
    for one in codes.on.as_slice() {
        fewest = fewest_from(Code(*one), off, read, fewest);
    }
    fewest
}

/// The codes of states at which a signal has the next value 1, and of those where it has 0, each as
/// a plain number.
#[derive(Drop)]
struct CodesByNext {
    on: ArrayVec<u128, MAX_WITNESSES>,
    off: ArrayVec<u128, MAX_WITNESSES>,
}

/// The codes of these states, by the next value of `z`.
fn codes_among(coded: &Coded, z: Sig, states: &[u32]) -> CodesByNext
    requires signal { z < length coded.now.graph.signals }
    requires few { length states.now ≤ max_witnesses }
    requires states { All (λ s. s < coded.now.graph.states) states.now }
    ensures on { AreCodesAmong coded.now z true states.now result.on.items }
    ensures off { AreCodesAmong coded.now z false states.now result.off.items }
{
    let (mut on, mut off) = (ArrayVec::new(), ArrayVec::new());
    for state in states {
        let code = coded.code(StateId(*state));
        if coded.next_value(StateId(*state), z) {
            on.push(code.0);
        } else {
            off.push(code.0);
        }
    }
    CodesByNext { on, off }
}

/// The fewest signals at which the code differs from one of the others and none of which is read,
/// where these were the fewest before.
fn fewest_from(one: Code, others: &[u128], read: Code, before: Option<Code>) -> Option<Code>
    ensures some { IfSome result (λ differing. (before ≡ Some differing)
        ⊎ IsUnreadFromOne read one others.now differing) }
    ensures before { IfNone result (before ≡ None) }
    ensures none { IfNone result (All (DifferAtRead read one) others.now) }
{
    let mut fewest = before;
    for other in others {
        let found = unread_difference(one, Code(*other), read);
        fewest = fewer(fewest, found);
    }
    fewest
}

/// The signals at which the states differ, if they have to be told apart.
fn differing(coded: &Coded, z: Sig, read: Code, one: StateId, other: StateId) -> Option<Code>
    requires signal { z < length coded.now.graph.signals }
    requires width { length coded.now.graph.signals ≤ code_width }
    requires one { one < coded.now.graph.states }
    requires other { other < coded.now.graph.states }
    ensures apart { IfSome result (AreApart coded.now z read) }
    ensures none { IfNone result (AreAlike coded.now z read one other) }
{
    if coded.next_value(one, z) == coded.next_value(other, z) {
        return None;
    }
    unread_difference(coded.code(one), coded.code(other), read)
}

/// The signals at which the codes differ, if none of them is read.
fn unread_difference(one: Code, other: Code, read: Code) -> Option<Code>
    ensures some { IfSome result (IsUnread read one other) }
    ensures none { IfNone result (DifferAtRead read one other) }
{
    let differing = Code(one.0 ^ other.0);
    if cut(differing, read).0 == 0 {
        Some(differing)
    } else {
        None
    }
}

/// The smaller set, if there is one.
fn fewer(one: Option<Code>, other: Option<Code>) -> Option<Code>
    ensures either { (result ≡ one) ⊎ (result ≡ other) }
    ensures none { IfNone result ((one ≡ None) × (other ≡ None)) }
{
    match (one, other) {
        (Some(a), Some(b)) if b.0.count_ones() < a.0.count_ones() => other,
        (Some(_), _) => one,
        (None, _) => other,
    }
}
