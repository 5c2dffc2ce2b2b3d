//! The support of a signal.

ghost use Rattle.std.specs.Prelude.{◌≡◌, ℕ, ◌<◌, ◌≤◌, IfOk, length, true};
ghost use Rattle.si_base.specs.Bits.{bit};
ghost use Rattle.si_base.specs.Codes.{IsCoded};
ghost use Rattle.si_base.specs.Graph.{IsNonInput};
ghost use Rattle.si_base.specs.Limits.{code_width};
ghost use Rattle.si_checks.specs.Loops.Lent.{coded_of};
ghost use Rattle.si_match.specs.Loops.Differences.{AreDifferences};
ghost use Rattle.si_match.specs.Loops.Dropping.{AreTried};
ghost use Rattle.si_match.specs.Support.{determines, support_of};
ghost use Rattle.si_match.specs.Triggers.{AreTriggers};

use crate::codes::{codes_with, meet, projected_codes};
use crate::differences::{any_without, differences};
use crate::rows::{MAX_ROW_SIGNALS, determine_few};
use crate::triggers::triggers_of;
use crate::weight::size;
use si_base::ids::{Code, NoMemory, Sig};
use si_checks::distinct::Distinct;
use si_cube::codes::in_order;
use si_graph::coded::Coded;
use std::alloc::Global;

/// The most rows of a truth table for each state: with more of them, codes in order take less time.
const ROWS_PER_STATE: u64 = 8;

/// The most states of a graph whose codes are compared pair by pair: with more of them, codes in
/// order take less time and memory.
const MAX_COMPARED_STATES: u32 = 1024;

/// The most differences for each state: with more of them, codes in order take less time.
const DIFFERENCES_PER_STATE: usize = 16;

/// The support of `z`, a bit for each signal: of all signals, in signal order, each is dropped
/// without which the values of the others still determine the next value of `z`. It fails only
/// where memory runs out.
pub fn support(alloc: Global, graph: Distinct<'_>, z: Sig) -> Result<Code, NoMemory>
    requires { IsNonInput (coded_of graph).graph.signals z }
    ensures { IfOk result (λ signals. signals ≡ support_of (coded_of graph.entry) z) }
{
    let coded = graph.proper().coded();
    let triggers = triggers_of(coded, z);
    support_from(alloc, coded, z, triggers.signals)
}

/// The support of `z`, some triggers of which are known: no trigger can be dropped. So the
/// triggers are the support where they determine the next value. Where they do so together with
/// `z` itself, all other signals before `z` are dropped; and those behind it too, unless they and
/// the triggers make `z` needless. Else all signals but the triggers are tried.
pub fn support_from(alloc: Global, coded: &Coded, z: Sig, triggers: Code) -> Result<Code, NoMemory>
    requires coded { IsCoded coded.now }
    requires signal { z < length coded.now.graph.signals }
    requires triggers { AreTriggers coded.now z triggers }
    ensures { IfOk result (λ signals. signals ≡ support_of coded.now z) }
{
    if determine(alloc, coded, z, triggers)? {
        return Ok(triggers);
    }
    let count = coded.graph().signals().len();
    let own = triggers.set(z, true);
    if !determine(alloc, coded, z, own)? {
        return kept_signals(alloc, coded, z, triggers, 0, Code::ones(count));
    }
    let later = with_later(triggers, z, count);
    if !determine(alloc, coded, z, later)? {
        return Ok(own);
    }
    kept_signals(alloc, coded, z, triggers, z.0 as usize + 1, later)
}

/// Whether the values of these signals determine the next value of `z`.
fn determine(alloc: Global, coded: &Coded, z: Sig, signals: Code) -> Result<bool, NoMemory>
    requires { z < length coded.now.graph.signals }
    ensures { IfOk result (λ told. told ≡ determines coded.now z signals) }
{
    let count = size(signals, coded.graph().signals().len());
    let most = ROWS_PER_STATE * u64::from(coded.graph().states());
    if count <= MAX_ROW_SIGNALS as u64 && 1 << count <= most {
        return determine_few(alloc, coded, z, signals);
    }
    determine_many(alloc, coded, z, signals)
}

/// Whether the values of these signals, however many, determine the next value of `z`: no code has
/// both next values.
fn determine_many(alloc: Global, coded: &Coded, z: Sig, signals: Code) -> Result<bool, NoMemory>
    requires { z < length coded.now.graph.signals }
    ensures { IfOk result (λ told. told ≡ determines coded.now z signals) }
{
    let on = codes_with(alloc, coded, z, true, signals)?;
    let off = in_order(codes_with(alloc, coded, z, false, signals)?);
    Ok(!meet(&on, &off))
}

/// The set with all signals behind `z`.
fn with_later(signals: Code, z: Sig, count: usize) -> Code
    requires within { z < count }
    requires few { count ≤ code_width }
    ensures later { (j : ℕ) → z < j → j < count → bit result j ≡ true }
    ensures others { (j : ℕ) → (z < j → j < count → ⊥) → bit result j ≡ bit signals j }
{
    let later = Code::ones(count).0 ^ Code::ones(z.0 as usize + 1).0;
    Code(signals.0 | later)
}

/// The support of `z`, where the signals before `first` have been tried and those behind are all
/// there.
fn kept_signals(
    alloc: Global,
    coded: &Coded,
    z: Sig,
    triggers: Code,
    first: usize,
    all: Code,
) -> Result<Code, NoMemory>
    requires coded { IsCoded coded.now }
    requires signal { z < length coded.now.graph.signals }
    requires triggers { AreTriggers coded.now z triggers }
    requires tried { AreTried coded.now z first all }
    ensures { IfOk result (λ signals. signals ≡ support_of coded.now z) }
{
    let states = coded.graph().states();
    if states > MAX_COMPARED_STATES {
        return kept_by_codes(alloc, coded, z, triggers, first, all);
    }
    let differences = differences(alloc, coded, z, all, triggers)?;
    if differences.len() > DIFFERENCES_PER_STATE * states as usize {
        return kept_by_codes(alloc, coded, z, triggers, first, all);
    }
    Ok(kept_by_differences(coded, z, triggers, first, all, &differences))
}

/// The same, where these are the differences of codes with different next values. The signals that
/// are left determine the next value as long as they tell all of these apart. Differences that hold
/// a trigger aren't among them, since no trigger is dropped.
fn kept_by_differences(
    coded: &Coded,
    z: Sig,
    triggers: Code,
    first: usize,
    all: Code,
    differences: &[Code],
) -> Code
    requires coded { IsCoded coded.now }
    requires triggers { AreTriggers coded.now z triggers }
    requires tried { AreTried coded.now z first all }
    requires differences { AreDifferences coded.now z all triggers differences.now }
    ensures { result ≡ support_of coded.now z }
{
    let mut signals = all;
    for i in first..coded.graph().signals().len() {
        if triggers.get(Sig(i as u8)) {
            continue;
        }
        let fewer = signals.flip(Sig(i as u8));
        if any_without(differences, fewer) {
            continue;
        }
        signals = fewer;
    }
    signals
}

/// The same, for any number of states and differences. The codes are kept as two lists, by the next
/// value, and get shorter with each signal that is dropped.
fn kept_by_codes(
    alloc: Global,
    coded: &Coded,
    z: Sig,
    triggers: Code,
    first: usize,
    all: Code,
) -> Result<Code, NoMemory>
    requires coded { IsCoded coded.now }
    requires signal { z < length coded.now.graph.signals }
    requires triggers { AreTriggers coded.now z triggers }
    requires tried { AreTried coded.now z first all }
    ensures { IfOk result (λ signals. signals ≡ support_of coded.now z) }
{
    let count = coded.graph().signals().len();
    let mut signals = all;
    let mut on = codes_with(alloc, coded, z, true, signals)?;
    let mut off = codes_with(alloc, coded, z, false, signals)?;
    for i in first..count {
        let sig = Sig(i as u8);
        if triggers.get(sig) {
            continue;
        }
        let fewer = signals.flip(sig);
        let fewer_on = projected_codes(alloc, &on, fewer)?;
        let fewer_off = projected_codes(alloc, &off, fewer)?;
        if meet(&fewer_on, &fewer_off) {
            continue;
        }
        signals = fewer;
        on = fewer_on;
        off = fewer_off;
    }
    Ok(signals)
}
