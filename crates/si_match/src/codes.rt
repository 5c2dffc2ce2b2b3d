//! The codes of states, as far as some of the signals go.

ghost use Rattle.std.specs.Prelude.{◌≡◌, ℕ, ◌<◌, IfOk, Contains, length, true, false, bit_and};
ghost use Rattle.std.specs.List.Sorted.{IsNonDecreasing};
ghost use Rattle.si_match.specs.Loops.Codes.{AreCodes, AreProjected};

use si_base::ids::{Code, NoMemory, Sig, StateId};
use si_cube::codes::in_order;
use si_graph::coded::Coded;
use std::alloc::Global;

/// The values of these signals in the code; each other signal has 0.
pub fn cut(code: Code, signals: Code) -> Code
    ensures { result ≡ bit_and code signals }
{
    Code(code.0 & signals.0)
}

/// The values of these signals in the codes of the states at which `z` has the next value.
pub(crate) fn codes_with(
    alloc: Global,
    coded: &Coded,
    z: Sig,
    value: bool,
    signals: Code,
) -> Result<Vec<Code>, NoMemory>
    requires { z < length coded.now.graph.signals }
    ensures { IfOk result (λ codes. AreCodes coded.now z value signals codes.items) }
{
    let mut codes = Vec::new(alloc);
    for s in 0..coded.graph().states() {
        let s = StateId(s);
        if coded.next_value(s, z) != value {
            continue;
        }
        codes.push(cut(coded.code(s), signals))?;
    }
    Ok(codes)
}

/// The values of these signals in the codes, in ascending order.
pub(crate) fn projected_codes(
    alloc: Global,
    codes: &[Code],
    signals: Code,
) -> Result<Vec<Code>, NoMemory>
    ensures in_order { IfOk result (λ part. IsNonDecreasing part.items) }
    ensures same { IfOk result (λ part. AreProjected codes.now signals part.items) }
{
    let mut part = Vec::new(alloc);
    for code in codes {
        part.push(cut(*code, signals))?;
    }
    Ok(in_order(part))
}

/// Whether one code is in both lists, the second of which is in ascending order.
pub(crate) fn meet(one: &[Code], other: &[Code]) -> bool
    requires { IsNonDecreasing other.now }
    ensures meet { result ≡ true → (k : ℕ) × Contains one.now k × Contains other.now k }
    ensures apart { result ≡ false → (k : ℕ) → Contains one.now k → Contains other.now k → ⊥ }
{
    for code in one {
        if other.binary_search(code).is_ok() {
            return true;
        }
    }
    false
}
