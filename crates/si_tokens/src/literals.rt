//! Literals, read from words.

ghost use Rattle.std.specs.Prelude.{◌≡◌, ◌≤◌, ◌<◌, length, IfOk, IfSome, None, Some};
ghost use Rattle.si_base.specs.Limits.{max_signals};
ghost use Rattle.si_tokens.specs.SumParts.{literal_part};

use si_base::fault::TextKind;
use si_base::ids::{Literal, Sig};
use si_base::names::Names;
use si_words::lists::place_of;
use si_words::words::{is_signal_name, literal_name};

/// The literal of a word: a signal name with or without the mark of the complement, where these
/// names are declared. `None` where the word has another form.
pub fn read_literal(names: &Names, word: &[u8]) -> Option<Result<Literal, TextKind>>
    requires { length names.now ≤ max_signals }
    ensures read { result ≡ literal_part names.now word.now }
    ensures within { IfSome result (λ read. IfOk read (λ l. l.sig < length names.now)) }
{
    let name = literal_name(word);
    if !is_signal_name(name) {
        return None;
    }
    match place_of(names, name) {
        Some(place) => Some(Ok(Literal {
            sig: Sig(place as u8),
            plain: word == name,
        })),
        None => Some(Err(TextKind::Undeclared)),
    }
}
