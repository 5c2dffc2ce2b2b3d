//! What the tokens of an expression are.

ghost use Rattle.std.specs.Prelude.{◌≡◌, ◌∷◌, []};
ghost use Rattle.si_genlib.specs.Expression as expression;
ghost use Rattle.si_equations_reader.specs.Loops.Machine.{symbol_now};

use si_words::words::is_name_byte;

/// A token of an expression.
#[derive(Clone, Copy)]
pub enum Symbol<'a> {
    /// The name of a pin.
    Pin(&'a [u8]),
    Constant(bool),
    /// `!`
    Complement,
    /// `'`
    Prime,
    /// `*`
    Times,
    /// `+`
    Plus,
    /// `(`
    Open,
    /// `)`
    Close,
    /// `;`
    End,
    /// What can't stand in an expression.
    Other,
}

fn is_name(token: &[u8]) -> bool
    ensures { result ≡ expression.is_name token.now }
{
    match token {
        [] => false,
        [first, ..] => is_name_byte(*first),
    }
}

fn is_zero(token: &[u8]) -> bool
    ensures { result ≡ expression.is_zero token.now }
{
    b"CONST0".as_slice() == token
}

fn is_constant(token: &[u8]) -> bool
    ensures { result ≡ expression.is_constant token.now }
{
    is_zero(token) || b"CONST1".as_slice() == token
}

fn mark_of<'a>(byte: u8) -> Symbol<'a>
    ensures { symbol_now result ≡ expression.mark (byte ∷ []) }
{
    if byte == b'!' {
        Symbol::Complement
    } else if byte == b'\'' {
        Symbol::Prime
    } else if byte == b'*' {
        Symbol::Times
    } else if byte == b'+' {
        Symbol::Plus
    } else if byte == b'(' {
        Symbol::Open
    } else if byte == b')' {
        Symbol::Close
    } else if byte == b';' {
        Symbol::End
    } else {
        Symbol::Other
    }
}

fn mark<'a>(token: &[u8]) -> Symbol<'a>
    ensures { symbol_now result ≡ expression.mark token.now }
{
    match token {
        [] => Symbol::Other,
        [byte] => mark_of(*byte),
        [_, _, ..] => Symbol::Other,
    }
}

/// What the token is.
pub(crate) fn symbol_of(token: &[u8]) -> Symbol<'_>
    ensures { symbol_now result ≡ expression.symbol expression.trees token.now }
{
    if !is_name(token) {
        mark(token)
    } else if is_constant(token) {
        Symbol::Constant(!is_zero(token))
    } else {
        Symbol::Pin(token)
    }
}
