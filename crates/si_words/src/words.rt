//! What words are.

ghost use Rattle.std.specs.Prelude.{◌≡◌};
ghost use Rattle.std.specs.List.{list_all};
ghost use Rattle.si_base.specs.Words as words;
ghost use Rattle.si_words.specs.Sums as sums;

/// Whether the byte is a letter or `_`.
pub(crate) fn is_letter(b: u8) -> bool
    ensures { result ≡ words.is_letter b }
{
    b.is_ascii_alphabetic() || b == b'_'
}

/// Whether a signal name may have the byte behind its first.
pub fn is_name_byte(b: u8) -> bool
    ensures { result ≡ words.is_name_byte b }
{
    is_letter(b)
        || b.is_ascii_digit()
        || b == b'.'
        || b == b'['
        || b == b']'
        || b == b'<'
        || b == b'>'
}

/// Whether a signal name may have each byte behind its first.
fn are_name_bytes(bytes: &[u8]) -> bool
    ensures { result ≡ list_all words.is_name_byte bytes.now }
{
    bytes.iter().all(|b| is_name_byte(*b))
}

/// Whether the word is a signal name.
pub fn is_signal_name(word: &[u8]) -> bool
    ensures { result ≡ words.is_signal_name word.now }
{
    match word {
        [] => false,
        [first, rest @ ..] => is_letter(*first) && are_name_bytes(rest),
    }
}

/// The word without the mark of the complement.
pub fn literal_name(word: &[u8]) -> &[u8]
    ensures { result.now ≡ sums.literal_name word.now }
{
    match word.split_last() {
        Some((last, name)) => { if *last == b'\'' { name } else { word } }
        None => word,
    }
}

/// Whether the word is a signal name with or without the mark of the complement.
pub fn is_literal(word: &[u8]) -> bool
    ensures { result ≡ sums.is_literal word.now }
{
    is_signal_name(literal_name(word))
}
