//! Lines of a text, read one after the other.

ghost use Rattle.std.specs.Prelude.{if◌then◌else◌, ◌≡◌, ◌≤◌, ◌++◌, List, length, IfOk, IfErr};
ghost use Rattle.std.specs.Prelude.{OnOk, OnErr, ◌==◌, not, ◌∷◌, [], None};
ghost use Rattle.std.specs.List.{prefix_len, list_any};
ghost use Rattle.si_base.specs.Bytes.{line_feed};
ghost use Rattle.si_base.specs.TextFaults.{Tells, ToldBy};
ghost use Rattle.si_base.specs.declared.fault.TextFault.TheVariants.{At};
ghost use Rattle.si_base.specs.declared.fault.TextKind.TheVariants.{BadLine};
ghost use Rattle.si_words.specs.Lines as text_lines;
ghost use Rattle.si_words.specs.Lines.{Form};
ghost use Rattle.si_words.specs.Loops.Reads.{words_now};
ghost use Rattle.si_words.specs.Rows.{Left, all_lines, begins_with, after_line, fault_of};
ghost use Rattle.si_words.specs.Rows.{TakesLine, AddsNames, LeavesLine, RefusesNames};
ghost use Rattle.si_words.specs.Sums.{is_empty};

use crate::lists::add_names;
use si_base::fault::{LineFault, TextFault, TextKind, at_line};
use si_base::names::Names;
use std::alloc::{AllocError, Global};
use std::marker::Model;

/// Lines not yet read, and the number of the first.
#[derive(Drop)]
pub struct Rows<'a> {
    rest: &'a [u8],
    number: u64,
}

impl<'a> Model for Rows<'a> {
    ghost use Rattle.std.specs.Prelude.{length, ◌+◌, ◌<◌, ◌^◌};
    ghost use Rattle.si_words.specs.Lines.{ended, tail_of};
    ghost use Rattle.si_words.specs.Rows.{Left};

    ghost Value = { Left };

    ghost view = { λ s. record {
      number = s.number;
      lines = ended s.rest.now;
      tail = tail_of s.rest.now;
    } };

    ghost invariant = { λ s. s.number + length s.rest.now < 2 ^ 64 };
}

fn len_of_line(bytes: &[u8]) -> usize
    ensures within { result ≤ length bytes.now }
    ensures len { result ≡ prefix_len (λ b. not (b == line_feed)) bytes.now }
{
    bytes.iter().take_while(|b| **b != b'\n').count()
}

fn has_bad_byte(line: &[u8]) -> bool
    ensures { result ≡ text_lines.has_bad_byte_here line.now }
{
    line.iter().any(|b| !(*b >= 32 && *b <= 126))
}

/// The words of a line between its blanks.
fn words_of<'a>(alloc: Global, line: &'a [u8]) -> Result<Vec<&'a [u8]>, AllocError>
    ensures { IfOk result (λ v. words_now v.items ≡ text_lines.words_of line.now) }
{
    line.split(|b| *b == b' ').collect(alloc)
}

impl<'a> Rows<'a> {
    /// All lines of the text, numbered from 1.
    pub fn new(text: &'a [u8]) -> Rows<'a>
        ensures { result ≡ all_lines text.now }
    {
        Rows {
            rest: text,
            number: 1,
        }
    }

    /// The words of the next line.
    ///
    /// Fails with the fault of the line, where it has a bad byte or no end, and where memory runs
    /// out. After a refusal the lines are as before.
    pub fn next_words(&mut self, alloc: Global) -> Result<Vec<&'a [u8]>, TextFault>
        ensures ok { IfOk result (λ v. TakesLine self.old self.new (words_now v.items)) }
        ensures err { (form : Form) (forms : List Form)
            → ToldBy result (fault_of (form ∷ forms) self.old) }
        ensures kept { OnErr result (self.new ≡ self.old) }
    {
        let rest = self.rest;
        let number = self.number;
        let len = len_of_line(rest);
        let (line, _) = rest.split_at(len);
        if has_bad_byte(line) {
            return Err(TextFault::At {
                line: number,
                kind: TextKind::BadByte,
            });
        }
        if len >= rest.len() {
            return Err(TextFault::At {
                line: number,
                kind: TextKind::NoEnd,
            });
        }
        let (_, after) = rest.split_at(len + 1);
        let words = words_of(alloc, line)?;
        self.rest = after;
        self.number = number + 1;
        Ok(words)
    }

    /// Takes the next line if it is this one, and says whether it was. Else the lines are as
    /// before.
    pub fn take_line(&mut self, line: &[u8]) -> bool
        ensures is { result ≡ begins_with line.now self.old.lines }
        ensures left { self.new ≡ (if result then after_line self.old else self.old) }
    {
        let rest = self.rest;
        let len = len_of_line(rest);
        let (first, _) = rest.split_at(len);
        if len >= rest.len() || line != first {
            return false;
        }
        let (_, after) = rest.split_at(len + 1);
        self.rest = after;
        self.number += 1;
        true
    }

    /// Whether nothing is left, where no more lines are due.
    ///
    /// Fails with `BadLine` at the next line exactly where something is left.
    pub fn finish(&self) -> Result<(), TextFault>
        ensures ok { OnOk result (fault_of [] self.now ≡ None) }
        ensures err { ToldBy result (fault_of [] self.now) }
        ensures at { IfErr result (λ e. e ≡ At self.now.number BadLine) }
    {
        if self.rest.is_empty() {
            Ok(())
        } else {
            Err(TextFault::At {
                line: self.number,
                kind: TextKind::BadLine,
            })
        }
    }

    /// The number of the next line.
    pub fn number(&self) -> u64
        ensures { result ≡ self.now.number }
    {
        self.number
    }
}

/// Whether the word has no byte.
pub fn is_nothing(word: &[u8]) -> bool
    ensures { result ≡ is_empty word.now }
{
    match word {
        [] => true,
        _ => false,
    }
}

/// Whether two blanks stand together, or one at an end.
pub fn has_empty(words: &[&[u8]]) -> bool
    ensures { result ≡ list_any is_empty (words_now words.now) }
{
    words.iter().any(|w| is_nothing(*w))
}

fn take_names(words: &[&[u8]], head: &[u8], limit: u32, names: &mut Names) -> Result<(), LineFault>
    ensures fault { Tells result
        (text_lines.names_fault limit head.now names.old (words_now words.now)) }
    ensures value { OnOk result
        (names.new ≡ names.old ++ text_lines.rest_of (words_now words.now)) }
    ensures left { IfErr result
        (λ e. LeavesLine limit e names.old names.new (words_now words.now)) }
    ensures few { length names.old ≤ limit → length names.new ≤ limit }
{
    let [first, rest @ ..] = words else {
        return Err(LineFault::Kind(TextKind::BadLine));
    };
    if head != *first || has_empty(rest) {
        return Err(LineFault::Kind(TextKind::BadLine));
    }
    add_names(names, limit, rest)
}

/// A list line, of the head and names: the names go behind those that are there, up to `limit`
/// names.
///
/// Fails with the fault of the line, and where memory runs out. After a refusal all is as before,
/// where the line has a bad byte or no end; or the line is taken, and the names before the faulty
/// one are there, or where memory ran out some first names without a fault.
pub fn names_row(
    alloc: Global,
    rows: &mut Rows<'_>,
    head: &[u8],
    limit: u32,
    names: &mut Names,
) -> Result<(), TextFault>
    ensures ok { OnOk result
        (AddsNames (text_lines.names_fault limit head.now names.old) rows.old rows.new
        names.old names.new) }
    ensures err { (forms : List Form)
        → ToldBy result (fault_of (text_lines.names_fault limit head.now names.old ∷ forms)
        rows.old) }
    ensures left { IfErr result (λ e. RefusesNames limit e rows.old rows.new names.old names.new) }
    ensures few { length names.old ≤ limit → length names.new ≤ limit }
{
    let number = rows.number();
    let words = rows.next_words(alloc)?;
    match take_names(&words, head, limit, names) {
        Ok(()) => Ok(()),
        Err(fault) => Err(at_line(number, fault)),
    }
}
