//! Whether some instance fits, by the signals that it reads.

ghost use Rattle.std.specs.Prelude.{◌≡◌, ℕ, ◌<◌, ◌≤◌, ◌↔◌, ◌+◌, ◌∷◌, ◌++◌, List, All, Contains};
ghost use Rattle.std.specs.Prelude.{length, true, false};
ghost use Rattle.si_base.specs.Bits.{bit};
ghost use Rattle.si_base.specs.Codes.{IsCoded};
ghost use Rattle.si_base.specs.Limits.{code_width};
ghost use Rattle.si_cell.specs.Library.{IsLibrary};
ghost use Rattle.si_cell.specs.Limits.{max_pins};
ghost use Rattle.si_match.specs.Loops.Apart.{NoneFitsWith};
ghost use Rattle.si_match.specs.Loops.Choices.{AreOwed, Ascends, NoneFitsOver};
ghost use Rattle.si_match.specs.Loops.Known.{IsFitted};

use arrayvec::ArrayVec;
use si_base::ids::{Code, Sig};
use si_cell::limits::MAX_PINS;
use si_graph::coded::Coded;
use si_match::apart::told_apart;
use si_match::functions::LibraryFunctions;
use si_match::places::some_table_agrees;
use si_match::triggers::MAX_WITNESSES;
use si_match::weight::size;

/// Whether some instance fits `z` that reads no signals but `z`, the chosen ones and so many more;
/// `read` has a bit for `z` and for each chosen one. While two states have to be told apart,
/// only signals at which they differ are tried. If no instance fits, the chosen signals are as
/// before.
pub(crate) fn some_reading_fits(
    coded: &Coded,
    library: &LibraryFunctions<'_>,
    z: Sig,
    witnesses: &mut ArrayVec<u32, MAX_WITNESSES>,
    missing: Code,
    chosen: &mut ArrayVec<u8, MAX_PINS>,
    read: Code,
    more: usize,
) -> bool
    requires coded { IsCoded coded.now }
    requires signal { z < length coded.now.graph.signals }
    requires width { length coded.now.graph.signals ≤ code_width }
    requires witnesses { All (λ s. s < coded.now.graph.states) witnesses.old.items }
    requires missing { AreOwed coded.now library.now z chosen.old.items missing }
    requires pins { length chosen.old.items + more ≡ max_pins }
    requires signals { All (λ y. y < length coded.now.graph.signals) chosen.old.items }
    requires read { (y : ℕ) → Contains (z ∷ chosen.old.items) y ↔ (bit read y ≡ true) }
    ensures fits { result ≡ true → IsFitted coded.now library.now z }
    ensures none { result ≡ false → NoneFitsWith coded.now library.now z chosen.old.items more }
    ensures kept { result ≡ false → chosen.new.items ≡ chosen.old.items }
    ensures library { IsLibrary library.now }
    ensures witnesses { All (λ s. s < coded.now.graph.states) witnesses.new.items }
{
    // What holds of each library comes with its tables.
    let _tables = library.tables();
    if more == 0 {
        return some_choice_fits(coded, library, z, witnesses, missing, chosen, 0, more);
    }
    let Some(differing) = told_apart(coded, z, chosen.as_slice(), read, witnesses) else {
        return some_choice_fits(coded, library, z, witnesses, missing, chosen, 0, more);
    };
    for y in 0..coded.graph().signals().len() {
        let signal = Sig(y as u8);
        if !differing.get(signal) {
            continue;
        }
        let still = missing.set(signal, false);
        let also = read.set(signal, true);
        chosen.push(signal.0);
        if some_reading_fits(coded, library, z, witnesses, still, chosen, also, more - 1) {
            return true;
        }
        chosen.pop();
    }
    false
}

/// Whether some instance fits `z` that reads no signals but `z`, the chosen ones and so many more
/// of the signals from `first` on. Each fitting instance reads the missing signals: the search ends
/// where more of them are missing than can come. If no instance fits, the chosen signals are as
/// before. States at which a truth table differs join the witnesses, as far as there is room.
fn some_choice_fits(
    coded: &Coded,
    library: &LibraryFunctions<'_>,
    z: Sig,
    witnesses: &mut ArrayVec<u32, MAX_WITNESSES>,
    missing: Code,
    chosen: &mut ArrayVec<u8, MAX_PINS>,
    first: usize,
    more: usize,
) -> bool
    requires coded { IsCoded coded.now }
    requires signal { z < length coded.now.graph.signals }
    requires width { length coded.now.graph.signals ≤ code_width }
    requires witnesses { All (λ s. s < coded.now.graph.states) witnesses.old.items }
    requires missing { AreOwed coded.now library.now z chosen.old.items missing }
    requires pins { length chosen.old.items + more ≡ max_pins }
    requires signals { All (λ y. y < length coded.now.graph.signals) chosen.old.items }
    ensures fits { result ≡ true → IsFitted coded.now library.now z }
    ensures none { result ≡ false → (rest : List ℕ) → length rest ≡ more
        → Ascends (length coded.now.graph.signals) first rest
        → NoneFitsOver coded.now library.now z (chosen.old.items ++ rest) }
    ensures kept { result ≡ false → chosen.new.items ≡ chosen.old.items }
    ensures library { IsLibrary library.now }
    ensures witnesses { All (λ s. s < coded.now.graph.states) witnesses.new.items }
{
    let tables = library.tables();
    let count = coded.graph().signals().len();
    let most = size(missing, count);
    if most > more as u64 {
        return false;
    }
    if more == 0 {
        return some_table_agrees(coded, z, chosen.as_slice(), tables, witnesses);
    }
    let only_missing = most == more as u64;
    for y in first..count {
        if only_missing && !missing.get(Sig(y as u8)) {
            continue;
        }
        let still = missing.set(Sig(y as u8), false);
        chosen.push(y as u8);
        if some_choice_fits(coded, library, z, witnesses, still, chosen, y, more - 1) {
            return true;
        }
        chosen.pop();
    }
    false
}
