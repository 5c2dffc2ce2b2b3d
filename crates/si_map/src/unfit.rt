//! Signals that fit no cell, and what they add to the weight.

ghost use Rattle.std.specs.Prelude.{◌≡◌, ℕ, ◌<◌, ◌≤◌, All, IfOk, IfSome, IfNone};
ghost use Rattle.std.specs.Prelude.{is_none, is_some, true, false};
ghost use Rattle.si_base.specs.Bits.{bit, IsSet};
ghost use Rattle.si_base.specs.Codes.{IsCoded};
ghost use Rattle.si_base.specs.Graph.{IsNonInput};
ghost use Rattle.si_base.specs.Limits.{code_width};
ghost use Rattle.si_checks.specs.Loops.Lent.{coded_of};
ghost use Rattle.si_match.specs.Fit.{first_fit};
ghost use Rattle.si_match.specs.Loops.Known.{AreKnown};
ghost use Rattle.si_match.specs.Triggers.{AreTriggers};
ghost use Rattle.si_match.specs.Weight.{added_weight};

use crate::choices::some_reading_fits;
use crate::weight::below;
use arrayvec::ArrayVec;
use si_base::ids::{Code, NoMemory, Sig};
use si_cell::limits::MAX_PINS;
use si_checks::distinct::Distinct;
use si_graph::coded::Coded;
use si_match::functions::LibraryFunctions;
use si_match::known::KnownFits;
use si_match::support::support_from;
use si_match::triggers::{Triggers, triggers_of};
use si_match::weight::size;
use std::alloc::Global;

/// Whether some instance of the library fits `z`. It is asked of the functions that cells compute,
/// which takes less time than to look for the first.
pub(crate) fn fits(graph: Distinct<'_>, library: &LibraryFunctions<'_>, z: Sig) -> bool
    requires { IsNonInput (coded_of graph).graph.signals z }
    ensures { result ≡ is_some (first_fit (coded_of graph.entry) library.now z) }
{
    let coded = graph.proper().coded();
    let triggers = triggers_of(coded, z);
    fits_some(coded, library, &KnownFits::nothing(), z, triggers)
}

/// Whether a cell fits `z`, which has these triggers, where some fits are known.
fn fits_some(
    coded: &Coded,
    library: &LibraryFunctions<'_>,
    known: &KnownFits,
    z: Sig,
    triggers: Triggers,
) -> bool
    requires coded { IsCoded coded.now }
    requires driven { IsNonInput coded.now.graph.signals z }
    requires known { AreKnown coded.now library.now known.now }
    requires read { known.now.read < code_width }
    requires unfitted { bit known.now.unknown z ≡ false → bit known.now.fitted z ≡ false }
    requires triggers { AreTriggers coded.now z triggers.signals }
    requires states { All (λ s. s < coded.now.graph.states) triggers.witnesses.items }
    ensures { result ≡ is_some (first_fit coded.now library.now z) }
{
    let Triggers {
        signals,
        mut witnesses,
    } = triggers;
    let missing = needed_signals(known, z, signals);
    let mut chosen = ArrayVec::new();
    some_reading_fits(
        coded,
        library,
        z,
        &mut witnesses,
        missing,
        &mut chosen,
        Code(0).set(z, true),
        MAX_PINS,
    )
}

/// The signals other than `z` that each instance that fits `z` reads, as far as they are known.
fn needed_signals(known: &KnownFits, z: Sig, triggers: Code) -> Code
    requires signal { z < code_width }
    requires read { known.now.read < code_width }
    ensures unknown { bit known.now.unknown z ≡ true → IsSet triggers z false result }
    ensures others { bit known.now.unknown z ≡ false → (more : ℕ)
        × IsSet triggers known.now.read true more × IsSet more z false result }
{
    if known.unknown.get(z) {
        return triggers.set(z, false);
    }
    triggers.set(known.read, true).set(z, false)
}

/// Triggers of a non-input that fits no cell, else None.
fn unfit_triggers(
    coded: &Coded,
    library: &LibraryFunctions<'_>,
    known: &KnownFits,
    z: Sig,
) -> Option<Code>
    requires coded { IsCoded coded.now }
    requires driven { IsNonInput coded.now.graph.signals z }
    requires known { AreKnown coded.now library.now known.now }
    requires read { known.now.read < code_width }
    ensures some { IfSome result (AreTriggers coded.now z) }
    ensures unfit { is_some result ≡ is_none (first_fit coded.now library.now z) }
{
    if known.fitted.get(z) && !known.unknown.get(z) {
        return None;
    }
    let triggers = triggers_of(coded, z);
    let signals = triggers.signals;
    if fits_some(coded, library, known, z, triggers) {
        return None;
    }
    Some(signals)
}

/// What a non-input adds to the weight, where some fits are known: nothing where it fits a cell,
/// else one more than the size of its support. None where that isn't below the bar. No support is
/// looked for where one more than the number of the triggers isn't: none of them is dropped.
pub(crate) fn added_below(
    alloc: Global,
    coded: &Coded,
    library: &LibraryFunctions<'_>,
    known: &KnownFits,
    z: Sig,
    bar: u64,
) -> Result<Option<u64>, NoMemory>
    requires coded { IsCoded coded.now }
    requires driven { IsNonInput coded.now.graph.signals z }
    requires known { AreKnown coded.now library.now known.now }
    requires read { known.now.read < code_width }
    ensures some { IfOk result (λ o. IfSome o
        (λ added. (added ≡ added_weight coded.now library.now z) × (added ≤ bar))) }
    ensures none { IfOk result (λ o. IfNone o (bar ≤ added_weight coded.now library.now z)) }
{
    let Some(triggers) = unfit_triggers(coded, library, known, z) else {
        return Ok(Some(0));
    };
    let count = coded.graph().signals().len();
    if 1 + size(triggers, count) >= bar {
        return Ok(None);
    }
    let support = support_from(alloc, coded, z, triggers)?;
    Ok(below(1 + size(support, count), bar))
}
