//! Event words: a signal name, then `+` or `-`, then nothing or `/` with one to nine digits.

ghost use Rattle.std.specs.Prelude.{◌≡◌, ◌<◌, ◌≤◌, IfOk, MatchResult, None, Some, length, true};
ghost use Rattle.std.specs.List.{prefix_len, list_all};
ghost use Rattle.si_base.specs.Bytes.{digit_zero, digit_nine};
ghost use Rattle.si_base.specs.Limits.{max_signals};
ghost use Rattle.si_base.specs.Words as words;
ghost use Rattle.si_words.specs.Events as events;

use crate::lists::place_of;
use crate::words::{is_letter, is_name_byte};
use si_base::fault::TextKind;
use si_base::ids::{Event, Sig};
use si_base::names::Names;

fn name_len(word: &[u8]) -> usize
    ensures within { result ≤ length word.now }
    ensures len { result ≡ prefix_len words.is_name_byte word.now }
{
    word.iter().take_while(|b| is_name_byte(**b)).count()
}

fn are_digits(bytes: &[u8]) -> bool
    ensures { result ≡ list_all (words.is_between digit_zero digit_nine) bytes.now }
{
    bytes.iter().all(|b| b.is_ascii_digit())
}

fn is_ending(bytes: &[u8]) -> bool
    ensures { result ≡ events.is_ending bytes.now }
{
    match bytes {
        [] => true,
        [first, digits @ ..] => {
            *first == b'/' && are_digits(digits) && 1 <= digits.len() && digits.len() <= 9
        }
    }
}

/// Whether the sign of an event says upward.
fn read_sign(sign: &[u8]) -> Result<bool, TextKind>
    ensures { MatchResult result (λ up. (events.sign_fault sign.now ≡ None)
        × (up ≡ events.is_up sign.now)) (λ kind. events.sign_fault sign.now ≡ Some kind) }
{
    let [first, ending @ ..] = sign else {
        return Err(TextKind::BadEvent);
    };
    if !is_ending(ending) {
        return Err(TextKind::BadEvent);
    }
    match *first {
        b'+' => Ok(true),
        b'-' => Ok(false),
        b'~' => Err(TextKind::Toggle),
        _ => Err(TextKind::BadEvent),
    }
}

/// Whether the bytes, each of which a name may have behind its first, are a signal name.
fn begins_name(bytes: &[u8]) -> bool
    requires { list_all words.is_name_byte bytes.now ≡ true }
    ensures { result ≡ words.is_signal_name bytes.now }
{
    match bytes {
        [] => false,
        [first, ..] => is_letter(*first),
    }
}

/// The event that a word spells, where these names are declared: a signal name, then `+` or `-`,
/// then nothing or `/` with one to nine digits, which have no meaning.
///
/// # Errors
///
/// `Toggle` for `~` in place of the sign, `BadEvent` for any other word that isn't an event, and
/// `Undeclared` for a name that isn't declared.
pub fn read_event(names: &Names, word: &[u8]) -> Result<Event, TextKind>
    requires { length names.now ≤ max_signals }
    ensures read { MatchResult result (λ e. (events.event_fault names.now word.now ≡ None)
        × (e ≡ events.event_of names.now word.now))
        (λ kind. events.event_fault names.now word.now ≡ Some kind) }
    ensures within { IfOk result (λ e. e.sig < length names.now) }
{
    let (name, sign) = word.split_at(name_len(word));
    if !begins_name(name) {
        return Err(TextKind::BadEvent);
    }
    let up = read_sign(sign)?;
    match place_of(names, name) {
        Some(place) => Ok(Event {
            sig: Sig(place as u8),
            up,
        }),
        None => Err(TextKind::Undeclared),
    }
}
