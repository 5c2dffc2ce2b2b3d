//! The truth table of a next value over few signals: each state fills in the row of its values.

ghost use Rattle.std.specs.Prelude.{◌≡◌, ◌<◌, ◌≤◌, ◌^◌, All, IfOk, length};
ghost use Rattle.si_base.specs.Limits.{code_width};
ghost use Rattle.si_match.specs.Loops.Places.{placed_code};
ghost use Rattle.si_match.specs.Loops.Rows.{AreSignals, max_row_signals};
ghost use Rattle.si_match.specs.Support.{determines};
ghost use Rattle.si_match.specs.Weight.{size_from};

use arrayvec::ArrayVec;
use si_base::ids::{Code, NoMemory, Sig, StateId};
use si_graph::coded::Coded;
use std::alloc::Global;

/// The most signals of a truth table that is filled in.
pub(crate) const MAX_ROW_SIGNALS: usize = 16;

/// Those of the first `count` signals that are in the set.
fn signals_of(set: Code, count: usize) -> ArrayVec<u8, MAX_ROW_SIGNALS>
    requires width { count ≤ code_width }
    requires few { size_from count 0 set ≤ max_row_signals }
    ensures signals { AreSignals set count result.items }
    ensures few { length result.items ≤ max_row_signals }
{
    let mut signals = ArrayVec::new();
    for i in 0..count {
        if !set.get(Sig(i as u8)) {
            continue;
        }
        signals.push(i as u8);
    }
    signals
}

/// The values of the signals at the code, each at its place.
pub(crate) fn values_at(signals: &[u8], code: Code) -> usize
    requires few { length signals.now ≤ max_row_signals }
    requires signals { All (λ y. y < code_width) signals.now }
    ensures value { result ≡ placed_code signals.now code }
    ensures small { result < 2 ^ length signals.now }
{
    let mut values = 0;
    for i in 0..signals.len() {
        let sig = Sig(signals[signals.len() - 1 - i]);
        values = usize::from(code.get(sig)) + 2 * values;
    }
    values
}

/// Whether the values of these few signals determine the next value of `z`: no state finds another
/// next value in the row of its values.
pub(crate) fn determine_few(
    alloc: Global,
    coded: &Coded,
    z: Sig,
    set: Code,
) -> Result<bool, NoMemory>
    requires signal { z < length coded.now.graph.signals }
    requires few { size_from (length coded.now.graph.signals) 0 set ≤ max_row_signals }
    ensures { IfOk result (λ told. told ≡ determines coded.now z set) }
{
    let signals = signals_of(set, coded.graph().signals().len());
    let mut rows: Vec<Option<bool>> = vec![in alloc; None; 1 << signals.len()]?;
    for s in 0..coded.graph().states() {
        let values = values_at(signals.as_slice(), coded.code(StateId(s)));
        let next = coded.next_value(StateId(s), z);
        if rows[values] == Some(!next) {
            return Ok(false);
        }
        rows[values] = Some(next);
    }
    Ok(true)
}
