//! The sums of cells, read from their words.

ghost use Rattle.std.specs.Prelude.{◌≡◌, ◌≤◌, ◌<◌, ◌+◌, ◌∷◌, length, IfOk, IfSome, None, Some, codes};
ghost use Rattle.si_words.specs.Loops.Reads.{words_now};
ghost use Rattle.si_tokens.specs.LineParts.{each};
ghost use Rattle.si_cell.specs.CellWords as cell;
ghost use Rattle.si_cell.specs.Limits.{max_pins};
ghost use Rattle.si_cell.specs.Loops.Reads.{parts_left};

use crate::pin_sum::{PinCube, PinSum};
use crate::words::{is_zero, take_before};
use si_base::fault::TextKind;
use si_base::ids::{Code, Literal, NoMemory};
use si_base::lines::Words;
use si_base::names::Names;
use si_cube::cube::Cube;
use si_tokens::literals::read_literal;
use si_words::gate_lines::is_one;
use std::alloc::Global;

/// The literal of a word, where these names are declared. The own output stands only plain.
fn read_plain(declared: &Names, word: &[u8]) -> Option<Result<Literal, TextKind>>
    requires { length declared.now ≤ max_pins + 1 }
    ensures read { result ≡ cell.plain_part declared.now word.now }
    ensures within { IfSome result (λ read. IfOk read (λ l. l.sig < length declared.now)) }
{
    if b"q'".as_slice() == word {
        return None;
    }
    read_literal(declared, word)
}

/// The cube of words, where these names are declared: `1`, or literals of one signal each.
fn read_cube(declared: &Names, words: &[&[u8]]) -> Option<Result<Cube, TextKind>>
    requires { length declared.now ≤ max_pins + 1 }
    ensures { result ≡ cell.cube_part declared.now (words_now words.now) }
{
    let mut care = Code(0);
    let mut value = Code(0);
    if words.is_empty() {
        return None;
    }
    if is_one(b"1", words) {
        return Some(Ok(Cube { care, value }));
    }
    let mut fault = None;
    for word in words {
        match read_plain(declared, *word)? {
            Err(kind) => fault = fault.or(Some(kind)),
            Ok(literal) => {
                if care.get(literal.sig) {
                    fault = fault.or(Some(TextKind::Repeated));
                    continue;
                }
                care = care.set(literal.sig, true);
                value = value.set(literal.sig, literal.plain);
            }
        }
    }
    match fault {
        Some(kind) => Some(Err(kind)),
        None => Some(Ok(Cube { care, value })),
    }
}

/// The cubes of a sum from this part on, where the words behind it are left if there are `more`.
fn read_cubes<'a>(
    alloc: Global,
    declared: &Names,
    words: &mut Words<'a>,
    part: &mut Vec<&'a [u8]>,
    more: bool,
) -> Result<Option<Result<PinSum, TextKind>>, NoMemory>
    requires { length declared.now ≤ max_pins + 1 }
    ensures { IfOk result (λ read. read ≡ each (cell.cube_part declared.now)
        (words_now part.old.items ∷ parts_left (codes "+") more words.old)) }
{
    let mut sum = PinSum::new(alloc);
    let mut fault = None;
    let mut left = more;
    loop {
        let Some(cube) = read_cube(declared, part) else {
            return Ok(None);
        };
        match cube {
            Err(kind) => fault = fault.or(Some(kind)),
            Ok(cube) => sum.push(PinCube::of(&cube))?,
        }
        if !left {
            break;
        }
        left = take_before(b"+", words, part)?;
    }
    match fault {
        Some(kind) => Ok(Some(Err(kind))),
        None => Ok(Some(Ok(sum))),
    }
}

/// The sum of the words left, where these names are declared: `0`, or cubes with `+` between them.
/// The words are taken one after the other, and only those of one cube are held.
pub(crate) fn read_sum(
    alloc: Global,
    declared: &Names,
    words: &mut Words<'_>,
) -> Result<Option<Result<PinSum, TextKind>>, NoMemory>
    requires { length declared.now ≤ max_pins + 1 }
    ensures { IfOk result (λ read. read ≡ cell.sum_part declared.now words.old) }
{
    let mut part = Vec::new(alloc);
    let more = take_before(b"+", words, &mut part)?;
    if is_zero(&part, more) {
        return Ok(Some(Ok(PinSum::new(alloc))));
    }
    read_cubes(alloc, declared, words, &mut part, more)
}
