//! Lines of a text, and words of a line.

ghost use Rattle.std.specs.Prelude.{take_while, ◌&&◌, ◌||◌, ◌≡◌, ℕ, ◌+◌, ◌<◌, ◌≤◌, ◌^◌};
ghost use Rattle.std.specs.Prelude.{◌∷◌, [], List, length, MatchOption, not, ◌==◌};
ghost use Rattle.std.specs.Prelude.{◌↔◌, IsTrue, IsNone, IfSome};
ghost use Rattle.std.specs.List.{enumerate_from, prefix_len, list_any};
ghost use Rattle.si_base.specs.Bytes.{hash};
ghost use Rattle.si_base.specs.Lines.{lines_of, words_in, before_comment, is_blank as blank};
ghost use Rattle.si_base.specs.Lines.{is_plain as plain, has_bad_byte as bad, is_bad as bad_one};

use memchr::memchr;
use std::marker::Model;

/// A line without its line end.
#[derive(Clone, Copy)]
pub struct Line<'a> {
    /// Counted from 1.
    pub number: u64,
    pub bytes: &'a [u8],
}

/// The lines of a text that weren't taken yet. Each line end ends a line, and what stands after the
/// last is a line if it isn't empty. Contracts see the list of the lines left, each with its
/// number.
#[derive(Drop)]
pub struct Lines<'a> {
    rest: &'a [u8],
    number: u64,
}

impl<'a> Model for Lines<'a> {
    ghost use Rattle.std.specs.Prelude.{ℕ, List, length, ◌+◌, ◌<◌, ◌^◌};
    ghost use Rattle.std.specs.List.{enumerate_from};
    ghost use Rattle.si_base.specs.Lines.{lines_of};

    ghost Value = { List (ℕ × List ℕ) };

    ghost view = { λ s. enumerate_from s.number (lines_of s.rest.now) };

    ghost invariant = { λ s. s.number + length s.rest.now < 2 ^ 64 };
}

impl<'a> Lines<'a> {
    /// All lines of the text.
    pub fn new(text: &'a [u8]) -> Lines<'a>
        ensures { result ≡ enumerate_from 1 (lines_of text.now) }
    {
        Lines {
            rest: text,
            number: 1,
        }
    }

    /// Takes the next line; `None` exactly where none is left.
    pub fn next_line(&mut self) -> Option<Line<'a>>
        ensures { MatchOption result ((self.old ≡ []) × (self.new ≡ []))
            (λ l. self.old ≡ (l.number, l.bytes.now) ∷ self.new) }
    {
        let rest = self.rest;
        if rest.is_empty() {
            return None;
        }
        let number = self.number;
        let end = len_before(rest, b'\n');
        let (bytes, _) = rest.split_at(end);
        let (_, after) = rest.split_at((end + 1).min(rest.len()));
        self.rest = after;
        self.number = number + 1;
        Some(Line { number, bytes })
    }
}

fn is_blank(b: u8) -> bool
    ensures { result ≡ blank b }
{
    b == b' ' || b == b'\t' || b == b'\r'
}

/// How many bytes stand before the first one that is bad or begins the comment.
fn clean_len(line: &[u8]) -> usize
    ensures within { result ≤ length line.now }
    ensures len { result ≡ prefix_len (λ b. not (b == hash) && not (bad_one b)) line.now }
{
    line.iter()
        .take_while(|b| **b != b'#' && !is_bad(**b))
        .count()
}

fn is_plain(braces: bool, b: u8) -> bool
    ensures { result ≡ plain braces b }
{
    !is_blank(b) && !(braces && (b == b'{' || b == b'}'))
}

fn len_before(bytes: &[u8], mark: u8) -> usize
    ensures within { result ≤ length bytes.now }
    ensures len { result ≡ prefix_len (λ b. not (b == mark)) bytes.now }
{
    match memchr(mark, bytes) {
        Some(k) => k,
        None => bytes.len(),
    }
}

fn blank_len(bytes: &[u8]) -> usize
    ensures within { result ≤ length bytes.now }
    ensures len { result ≡ prefix_len blank bytes.now }
{
    bytes.iter().take_while(|b| is_blank(**b)).count()
}

fn plain_len(braces: bool, bytes: &[u8]) -> usize
    ensures within { result ≤ length bytes.now }
    ensures len { result ≡ prefix_len (plain braces) bytes.now }
{
    bytes.iter().take_while(|b| is_plain(braces, **b)).count()
}

/// The words of a line that weren't taken yet: the longest runs of bytes other than space, tab and
/// CR, up to the comment that `#` begins. Where `braces` says so, `{` and `}` are words of one byte
/// each. Contracts see the list of the words left.
#[derive(Drop)]
pub struct Words<'a> {
    rest: &'a [u8],
    braces: bool,
}

impl<'a> Model for Words<'a> {
    ghost use Rattle.std.specs.Prelude.{ℕ, List, length, ◌+◌, ◌<◌, ◌^◌};
    ghost use Rattle.si_base.specs.Lines.{words_in};

    ghost Value = { List (List ℕ) };

    ghost view = { λ s. words_in s.braces s.rest.now };
}

impl<'a> Words<'a> {
    /// All words of the line.
    pub fn new(line: &'a [u8], braces: bool) -> Words<'a>
        ensures { result ≡ words_in braces (before_comment line.now) }
    {
        let end = len_before(line, b'#');
        Words {
            rest: &line[..end],
            braces,
        }
    }

    /// All words of bytes that have no comment.
    pub fn of_bytes(bytes: &'a [u8], braces: bool) -> Words<'a>
        ensures { result ≡ words_in braces bytes.now }
    {
        Words {
            rest: bytes,
            braces,
        }
    }

    /// All words of the line, or `None` where it has a bad byte. It is one look at `has_bad_byte`
    /// and the comment.
    pub fn of_clean(line: &'a [u8], braces: bool) -> Option<Words<'a>>
        ensures bad { IsNone result ↔ IsTrue (bad line.now) }
        ensures words { IfSome result (λ w. w ≡ words_in braces (before_comment line.now)) }
    {
        let end = clean_len(line);
        if end < line.len() && line[end] != b'#' {
            return None;
        }
        Some(Words {
            rest: &line[..end],
            braces,
        })
    }

    /// Takes the next word; `None` exactly where none is left.
    pub fn next_word(&mut self) -> Option<&'a [u8]>
        ensures { MatchOption result ((self.old ≡ []) × (self.new ≡ []))
            (λ w. self.old ≡ w.now ∷ self.new) }
    {
        let braces = self.braces;
        let blanks = blank_len(self.rest);
        let (_, rest) = self.rest.split_at(blanks);
        if rest.is_empty() {
            self.rest = rest;
            return None;
        }
        let run = plain_len(braces, rest);
        let len = run.max(1);
        let (word, after) = rest.split_at(len);
        self.rest = after;
        Some(word)
    }
}

fn is_bad(b: u8) -> bool
    ensures { result ≡ bad_one b }
{
    (b < 32 && b != b'\t' && b != b'\r') || 126 < b
}

fn has_bad(bytes: &[u8]) -> bool
    ensures { result ≡ list_any bad_one bytes.now }
{
    bytes.iter().any(|b| is_bad(*b))
}

/// Whether some byte before the comment is one that no text may have: below 32 but for tab and CR,
/// or above 126.
pub fn has_bad_byte(line: &[u8]) -> bool
    ensures { result ≡ bad line.now }
{
    let (before, _) = line.split_at(len_before(line, b'#'));
    has_bad(before)
}
