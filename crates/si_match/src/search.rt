//! The search for the literals of an instance, pin after pin.

ghost use Rattle.std.specs.Prelude.{◌≡◌, ℕ, ◌<◌, ◌≤◌, ◌+◌, ◌++◌, All, length};
ghost use Rattle.std.specs.Prelude.{true, false, Some, None, option_map};
ghost use Rattle.si_base.specs.Limits.{code_width};
ghost use Rattle.si_cell.specs.Limits.{max_pins};
ghost use Rattle.si_base.specs.Codes.{IsCoded};
ghost use Rattle.si_match.specs.Loops.Search as spec;
ghost use Rattle.si_match.specs.Loops.Search.{first_completion};
ghost use Rattle.si_match.specs.Triggers.{AreMissing};

use crate::refute::is_refuted;
use crate::state::fits;
use crate::triggers::MAX_WITNESSES;
use crate::weight::size;
use arrayvec::ArrayVec;
use si_base::ids::{Code, Literal, Sig};
use si_cell::cell::{Cell, PinLiteral};
use si_cell::limits::MAX_PINS;
use si_cell::pins::Pins;
use si_graph::coded::Coded;

/// How many literals of so many signals such pins may have.
pub(crate) fn literal_count(allowed: Pins, signals: usize) -> usize
    requires { signals ≤ code_width }
    ensures { result ≡ spec.literal_count allowed signals }
{
    match allowed {
        Pins::Any => 2 * signals,
        Pins::Plain => signals,
    }
}

/// The signal of the literal at a place among them.
fn signal_at(allowed: Pins, place: usize) -> Sig
    requires { place < spec.literal_count allowed code_width }
    ensures signal { result ≡ (spec.literal_at allowed place).sig }
    ensures small { result < code_width }
{
    match allowed {
        Pins::Any => Sig((place / 2) as u8),
        Pins::Plain => Sig(place as u8),
    }
}

/// The literal at a place among them, in literal order: signal after signal, the plain one first.
pub(crate) fn literal_at(allowed: Pins, place: usize) -> PinLiteral
    requires { place < spec.literal_count allowed code_width }
    ensures literal { result ≡ spec.literal_at allowed place }
    ensures small { result.sig < code_width }
    ensures within { (signals : ℕ) → place < spec.literal_count allowed signals
        → result.sig < signals }
{
    let sig = signal_at(allowed, place);
    let plain = match allowed {
        Pins::Any => place % 2 == 0,
        Pins::Plain => true,
    };
    PinLiteral(Literal { sig, plain })
}

/// Completes the literals at the first pins of the cell by `more` of the allowed literals of the
/// graph's signals to the first instance that fits `z`, in literal order, the first of these pins
/// first. Answers whether there is one; if there is none, the literals are as before. The search
/// ends where more signals that the cell needs are missing at the pins than can come, or where one
/// of the witnesses refutes all completions. States that refute an instance join the witnesses, as
/// far as there is room.
pub(crate) fn complete(
    coded: &Coded,
    allowed: Pins,
    z: Sig,
    cell: &Cell,
    witnesses: &mut ArrayVec<u32, MAX_WITNESSES>,
    missing: Code,
    literals: &mut ArrayVec<PinLiteral, MAX_PINS>,
    more: usize,
) -> bool
    requires coded { IsCoded coded.now }
    requires signal { z < length coded.now.graph.signals }
    requires width { length coded.now.graph.signals ≤ code_width }
    requires witnesses { All (λ s. s < coded.now.graph.states) witnesses.old.items }
    requires missing { AreMissing coded.now z cell.now literals.old.items missing }
    requires pins { length literals.old.items + more ≡ length cell.now.pins }
    requires few { length cell.now.pins ≤ max_pins }
    requires signals { All (λ l. l.sig < length coded.now.graph.signals) literals.old.items }
    ensures found { result ≡ true
        → option_map (λ rest. literals.old.items ++ rest)
        (first_completion allowed coded.now z cell.now literals.old.items more)
        ≡ Some literals.new.items }
    ensures none { result ≡ false
        → first_completion allowed coded.now z cell.now literals.old.items more ≡ None }
    ensures kept { result ≡ false → literals.new.items ≡ literals.old.items }
    ensures witnesses { All (λ s. s < coded.now.graph.states) witnesses.new.items }
{
    let count = coded.graph().signals().len();
    let most = size(missing, count);
    if most > more as u64 {
        return false;
    }
    if is_refuted(coded, z, cell, literals.as_slice(), witnesses.as_slice()) {
        return false;
    }
    if more == 0 {
        return fits(coded, z, cell, literals.as_slice(), witnesses);
    }
    let only_missing = most == more as u64;
    let places = literal_count(allowed, count);
    for place in 0..places {
        let sig = signal_at(allowed, place);
        if only_missing && !missing.get(sig) {
            continue;
        }
        let still = missing.set(sig, false);
        literals.push(literal_at(allowed, place));
        if complete(
            coded,
            allowed,
            z,
            cell,
            witnesses,
            still,
            literals,
            more - 1,
        ) {
            return true;
        }
        literals.pop();
    }
    false
}
