//! Lines of one arc whose states were read before, as most lines of a large text are.

ghost use Rattle.std.specs.Prelude.{◌≡◌, ◌≢◌, ◌≤◌, AllPairs, IfSome, length, slice_get, Some};
ghost use Rattle.si_base.specs.Bytes.{sign as sign_of};
ghost use Rattle.si_base.specs.Limits.{max_signals};
ghost use Rattle.si_sg.specs.Loops.KnownArcs.{IsKnownArc, SpellsEvent};
ghost use Rattle.si_sg.specs.Loops.Reads.{AreStates};

use crate::arc_set::Arc;
use crate::section::SectionSoFar;
use crate::state_words::is_none;
use si_base::ids::{Event, Sig};
use si_base::lines::Words;
use si_base::names::Names;
use si_words::lists::place_of;
use si_words::words::is_signal_name;

/// The arc of a line, if a hint or the line before leads to its states. `None` doesn't say that the
/// line has no arc.
///
/// The words of states that were read and of an event have no bad byte, no brace and no `#`. So such
/// a line isn't searched for them.
pub(crate) fn known_arc(signals: &Names, section: &SectionSoFar<'_>, line: &[u8]) -> Option<Arc>
    requires few { length signals.now ≤ max_signals }
    requires states { AreStates section.now.states }
    ensures { IfSome result (IsKnownArc signals.now section.now.states line.now) }
{
    let mut words = Words::of_bytes(line, false);
    let source = words.next_word()?;
    let event = words.next_word()?;
    let target = words.next_word()?;
    if !is_none(&mut words) {
        return None;
    }
    let from = known_source(section, source)?;
    let Event { sig, up } = known_event(signals, event)?;
    let to = section.hints.place(&section.states, target)?;
    Some(Arc {
        from,
        sig: sig.0,
        up,
        to,
    })
}

/// The place of the source of an arc line. Mostly that is the source of the line before.
fn known_source(section: &SectionSoFar<'_>, word: &[u8]) -> Option<u32>
    ensures placed { IfSome result (λ k. slice_get section.now.states k ≡ Some word.now) }
    ensures distinct { AllPairs (λ x y. x ≢ y) section.now.states }
{
    if section.states.is_at(section.source, word) {
        Some(section.source)
    } else {
        section.hints.place(&section.states, word)
    }
}

/// The event of a word that is the name of a signal and a sign.
fn known_event(signals: &Names, word: &[u8]) -> Option<Event>
    requires { length signals.now ≤ max_signals }
    ensures { IfSome result (SpellsEvent signals.now word.now) }
{
    let (sign, name) = word.split_last()?;
    if !is_signal_name(name) {
        return None;
    }
    let place = place_of(signals, name)?;
    let up = is_upward(*sign)?;
    Some(Event {
        sig: Sig(place as u8),
        up,
    })
}

/// Whether the sign says upward.
fn is_upward(sign: u8) -> Option<bool>
    ensures { IfSome result (λ up. sign ≡ sign_of up) }
{
    match sign {
        b'+' => Some(true),
        b'-' => Some(false),
        _ => None,
    }
}
