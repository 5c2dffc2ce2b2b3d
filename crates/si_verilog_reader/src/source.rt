//! The symbols of a text of Verilog.

ghost use Rattle.std.specs.Prelude.{◌≡◌, ℕ, ◌≤◌, ◌<◌, ◌^◌, ◌==◌, not, false, if◌then◌else◌};
ghost use Rattle.std.specs.Prelude.{[], ◌∷◌, length, take, drop, count_by};
ghost use Rattle.std.specs.Prelude.{MatchOption, MatchBool, Some, None};
ghost use Rattle.std.specs.List.{list_all, prefix_len};
ghost use Rattle.si_base.specs.Bytes.{backslash, line_feed, closing_parenthesis};
ghost use Rattle.si_base.specs.Words as words;
ghost use Rattle.si_verilog.specs.Symbols as symbols;
ghost use Rattle.si_verilog_reader.specs.Loops.Held.{placed_now, symbol_now};
ghost use Rattle.si_verilog_reader.specs.Loops.Pieces.{piece_now, placed_piece_now};
ghost use Rattle.si_verilog_reader.specs.Modules.{begins_module as at_module, modules, size};
ghost use Rattle.si_verilog_reader.specs.Parts as parts;
ghost use Rattle.si_verilog_reader.specs.Placed.{on_line, placed_from, placed_symbols};

use crate::keywords::is_keyword;
use std::marker::Model;

/// A symbol of a text.
#[derive(Clone, Copy)]
pub(crate) enum Symbol<'a> {
    /// An identifier, without the backslash where it is escaped.
    Name(&'a [u8]),
    /// A keyword, a number or another word.
    Word(&'a [u8]),
    /// A mark, such as `&`.
    Mark(u8),
}

/// A symbol, and the line on which it stands.
#[derive(Clone, Copy)]
pub(crate) struct Placed<'a> {
    pub(crate) line: u64,
    pub(crate) symbol: Symbol<'a>,
}

/// A symbol as its bytes show it: whether a bare word is a name isn't asked yet.
#[derive(Clone, Copy)]
enum Piece<'a> {
    /// A bare word.
    Bare(&'a [u8]),
    /// An escaped name, without its backslash.
    Escaped(&'a [u8]),
    /// A mark.
    Mark(u8),
}

/// A piece, and the line on which it stands.
#[derive(Clone, Copy)]
struct PlacedPiece<'a> {
    line: u64,
    piece: Piece<'a>,
}

/// Whether the byte is a blank: space, tab, line feed, carriage return, or form feed (12).
fn is_blank(b: u8) -> bool
    ensures { result ≡ symbols.is_blank b }
{
    b == b' ' || b == b'\t' || b == b'\n' || b == b'\r' || b == 12
}

/// Whether the byte is a letter or `_`.
fn is_letter(b: u8) -> bool
    ensures { result ≡ words.is_letter b }
{
    b.is_ascii_alphabetic() || b == b'_'
}

/// Whether an identifier may have the byte behind its first.
fn is_identifier_byte(b: u8) -> bool
    ensures { result ≡ symbols.is_identifier_byte b }
{
    is_letter(b) || b.is_ascii_digit() || b == b'$'
}

/// Whether a bare word may have the byte.
fn is_bare_byte(b: u8) -> bool
    ensures { result ≡ symbols.is_bare_byte b }
{
    is_identifier_byte(b) || b == b'\''
}

/// How many blanks stand first.
fn blank_len(bytes: &[u8]) -> usize
    ensures within { result ≤ length bytes.now }
    ensures len { result ≡ prefix_len symbols.is_blank bytes.now }
{
    bytes.iter().take_while(|b| is_blank(**b)).count()
}

/// How many bytes stand before the first blank.
fn dark_len(bytes: &[u8]) -> usize
    ensures within { result ≤ length bytes.now }
    ensures len { result ≡ prefix_len (λ b. not (symbols.is_blank b)) bytes.now }
{
    bytes.iter().take_while(|b| !is_blank(**b)).count()
}

/// How many bytes of a bare word stand first.
fn bare_len(bytes: &[u8]) -> usize
    ensures within { result ≤ length bytes.now }
    ensures len { result ≡ prefix_len symbols.is_bare_byte bytes.now }
{
    bytes.iter().take_while(|b| is_bare_byte(**b)).count()
}

/// How many lines end in the bytes.
fn line_feeds(bytes: &[u8]) -> usize
    ensures within { result ≤ length bytes.now }
    ensures count { result ≡ count_by (λ b. b == line_feed) bytes.now }
{
    bytes.iter().filter(|b| **b == b'\n').count()
}

/// Whether an identifier may have each byte behind its first.
fn are_identifier_bytes(bytes: &[u8]) -> bool
    ensures { result ≡ list_all symbols.is_identifier_byte bytes.now }
{
    bytes.iter().all(|b| is_identifier_byte(*b))
}

/// Whether the word is an identifier.
fn is_identifier(word: &[u8]) -> bool
    ensures { result ≡ symbols.is_identifier word.now }
{
    match word {
        [] => false,
        [first, rest @ ..] => is_letter(*first) && are_identifier_bytes(rest),
    }
}

/// The symbol that a bare word is.
fn bare_symbol<'a>(word: &'a [u8]) -> Symbol<'a>
    ensures { symbol_now result ≡ symbols.bare_symbol word.now }
{
    if is_identifier(word) && !is_keyword(word) {
        Symbol::Name(word)
    } else {
        Symbol::Word(word)
    }
}

/// The symbol that the piece is.
fn symbol_of<'a>(piece: Piece<'a>) -> Symbol<'a>
    ensures { symbol_now result ≡ piece_now piece.entry }
{
    match piece {
        Piece::Bare(word) => bare_symbol(word),
        Piece::Escaped(name) => Symbol::Name(name),
        Piece::Mark(mark) => Symbol::Mark(mark),
    }
}

/// A piece, and the bytes behind it.
#[derive(Clone, Copy)]
struct Taken<'a> {
    piece: Piece<'a>,
    rest: &'a [u8],
}

/// The bare word that stands first.
fn bare_here<'a>(here: &'a [u8]) -> Taken<'a>
    ensures shorter { length result.rest.now ≤ length here.now }
    ensures piece { piece_now result.piece
        ≡ symbols.bare_symbol (take (prefix_len symbols.is_bare_byte here.now) here.now) }
    ensures rest { result.rest.now ≡ drop (prefix_len symbols.is_bare_byte here.now) here.now }
{
    let (word, rest) = here.split_at(bare_len(here));
    Taken {
        piece: Piece::Bare(word),
        rest,
    }
}

/// The piece that a backslash and these bytes are, where a blank stands behind them or none does.
fn escaped_piece<'a>(name: &'a [u8], is_closed: bool) -> Piece<'a>
    ensures { piece_now result
        ≡ (if is_closed then symbols.escaped_symbol name.now else symbols.Mark backslash) }
{
    if !is_closed {
        return Piece::Mark(b'\\');
    }
    match name {
        [] => Piece::Mark(b'\\'),
        [_, ..] => Piece::Escaped(name),
    }
}

/// The piece behind a backslash.
fn escaped_here<'a>(behind: &'a [u8]) -> Taken<'a>
    ensures shorter { length result.rest.now ≤ length behind.now }
    ensures piece { (n : ℕ) → placed_from n (symbols.Escaped []) behind.now
        ≡ on_line n (piece_now result.piece) ∷ placed_from n symbols.Between result.rest.now }
{
    let (name, rest) = behind.split_at(dark_len(behind));
    Taken {
        piece: escaped_piece(name, !rest.is_empty()),
        rest,
    }
}

/// The first piece, where no blank stands first.
fn piece_here<'a>(first: u8, behind: &'a [u8], here: &'a [u8]) -> Taken<'a>
    requires here { here.now ≡ first ∷ behind.now }
    requires dark { symbols.is_blank first ≡ false }
    ensures shorter { length result.rest.now ≤ length here.now }
    ensures piece { (n : ℕ) → placed_from n symbols.Between here.now
        ≡ on_line n (piece_now result.piece) ∷ placed_from n symbols.Between result.rest.now }
{
    if is_bare_byte(first) {
        bare_here(here)
    } else if first == b'\\' {
        escaped_here(behind)
    } else {
        Taken {
            piece: Piece::Mark(first),
            rest: behind,
        }
    }
}

/// Whether the piece is `)`.
fn is_closing(piece: Piece<'_>) -> bool
    ensures { result
        ≡ parts.same_symbol (symbols.Mark closing_parenthesis) (piece_now piece.entry) }
{
    match piece {
        Piece::Mark(mark) => mark == b')',
        Piece::Bare(_) => false,
        Piece::Escaped(_) => false,
    }
}

/// Whether a module begins with the piece: no other bare word is the keyword `module`.
fn begins_module(placed: PlacedPiece<'_>) -> bool
    ensures { result ≡ at_module (placed_piece_now placed.entry) }
{
    match placed.piece {
        Piece::Bare(word) => b"module".as_slice() == word,
        Piece::Escaped(_) => false,
        Piece::Mark(_) => false,
    }
}

/// What is left of a text. Contracts see the symbols that are left.
#[derive(Drop)]
pub(crate) struct Source<'a> {
    here: &'a [u8],
    /// The line of its first byte.
    line: u64,
}

impl<'a> Model for Source<'a> {
    ghost use Rattle.std.specs.Prelude.{List, length, ◌+◌, ◌<◌, ◌^◌};
    ghost use Rattle.si_verilog.specs.Symbols.{Between};
    ghost use Rattle.si_verilog_reader.specs.Placed.{Placed, placed_from};

    ghost Value = { List Placed };

    ghost view = { λ s. placed_from s.line Between s.here.now };

    ghost invariant = { λ s. s.line + length s.here.now < 2 ^ 64 };
}

impl<'a> Source<'a> {
    /// All of the text.
    #[tactic(auto, unfolding(crate::specs::Placed::placed_symbols))]
    pub(crate) fn new(text: &'a [u8]) -> Source<'a>
        ensures { result ≡ placed_symbols text.now }
    {
        Source {
            here: text,
            line: 1,
        }
    }

    /// The same symbols; there is no more than one for each byte.
    fn copy(&self) -> Source<'a>
        ensures same { result ≡ self.now }
        ensures few { length result < 2 ^ 64 }
    {
        Source {
            here: self.here,
            line: self.line,
        }
    }

    /// Takes the next piece; `None` exactly where none is left.
    fn next_piece(&mut self) -> Option<PlacedPiece<'a>>
        ensures { MatchOption result ((self.old ≡ []) × (self.new ≡ []))
            (λ p. self.old ≡ placed_piece_now p ∷ self.new) }
    {
        let (blanks, here) = self.here.split_at(blank_len(self.here));
        let line = self.line + line_feeds(blanks) as u64;
        self.line = line;
        let [first, behind @ ..] = here else {
            self.here = here;
            return None;
        };
        let taken = piece_here(*first, behind, here);
        self.here = taken.rest;
        Some(PlacedPiece {
            line,
            piece: taken.piece,
        })
    }

    /// Takes the next symbol; `None` exactly where none is left.
    pub(crate) fn next(&mut self) -> Option<Placed<'a>>
        ensures { MatchOption result ((self.old ≡ []) × (self.new ≡ []))
            (λ p. self.old ≡ placed_now p ∷ self.new) }
    {
        let placed = self.next_piece()?;
        Some(Placed {
            line: placed.line,
            symbol: symbol_of(placed.piece),
        })
    }

    /// Takes `)`, if that is next. Answers whether it was.
    pub(crate) fn take_closing(&mut self) -> bool
        ensures { MatchBool result (parts.closed self.old ≡ Some self.new)
            ((parts.closed self.old ≡ None) × (self.new ≡ self.old)) }
    {
        let mut ahead = self.copy();
        let Some(placed) = ahead.next_piece() else {
            return false;
        };
        if !is_closing(placed.piece) {
            return false;
        }
        *self = ahead;
        true
    }

    /// How many symbols are left before the next module.
    pub(crate) fn size(&self) -> usize
        ensures { result ≡ size self.now }
    {
        let mut ahead = self.copy();
        let mut size = 0;
        while let Some(placed) = ahead.next_piece() {
            if begins_module(placed) {
                return size;
            }
            size += 1;
        }
        size
    }

    /// How many modules begin in what is left.
    pub(crate) fn modules(&self) -> usize
        ensures { result ≡ modules self.now }
    {
        let mut ahead = self.copy();
        let mut modules = 0;
        while let Some(placed) = ahead.next_piece() {
            if begins_module(placed) {
                modules += 1;
            }
        }
        modules
    }
}
