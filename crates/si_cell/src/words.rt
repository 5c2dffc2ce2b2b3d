//! The words of library lines.

ghost use Rattle.std.specs.Prelude.{◌≡◌, ◌&&◌, ◌∷◌, not, codes, IfOk, Some, None};
ghost use Rattle.std.specs.Prelude.{if◌then◌else◌, option_map};
ghost use Rattle.si_words.specs.Loops.Reads.{words_now};
ghost use Rattle.si_words.specs.Sums as sums;
ghost use Rattle.si_cell.specs.CellWords as cell;
ghost use Rattle.si_cell.specs.Loops.Reads.{cell_words_now, parts_left};

use si_base::ids::NoMemory;
use si_base::lines::Words;
use si_words::gate_lines::is_one;
use std::alloc::Global;

/// Takes the words before the first that is the mark, and that one; all words, where none is. Puts
/// those before it in place of what the list has, and answers whether one is.
pub(crate) fn take_before<'a>(
    mark: &[u8],
    words: &mut Words<'a>,
    before: &mut Vec<&'a [u8]>,
) -> Result<bool, NoMemory>
    ensures cut { IfOk result (λ there. sums.cut_at mark.now words.old
        ≡ (if there then Some (words_now before.new.items, words.new) else None)) }
    ensures parts { IfOk result (λ there. sums.parts_at mark.now words.old
        ≡ words_now before.new.items ∷ parts_left mark.now there words.new) }
{
    before.clear();
    while let Some(word) = words.next_word() {
        if mark == word {
            return Ok(true);
        }
        before.push(word)?;
    }
    Ok(false)
}

/// What stands before the sum in a line `.cell NAME PINS = SUM`.
#[derive(Drop)]
pub(crate) struct Front<'a> {
    pub(crate) name: &'a [u8],
    pub(crate) pins: Vec<&'a [u8]>,
}

/// Takes the words before the sum in the line of a cell that begins with this word; `None` where
/// the line has another form.
pub(crate) fn take_front<'a>(
    alloc: Global,
    head: &[u8],
    words: &mut Words<'a>,
) -> Result<Option<Front<'a>>, NoMemory>
    ensures { IfOk result (λ front. option_map (λ f. cell_words_now f words.new) front
        ≡ cell.cell_words (head.now ∷ words.old)) }
{
    if b".cell".as_slice() != head {
        return Ok(None);
    }
    let Some(name) = words.next_word() else {
        return Ok(None);
    };
    let mut pins = Vec::new(alloc);
    if take_before(b"=", words, &mut pins)? {
        Ok(Some(Front { name, pins }))
    } else {
        Ok(None)
    }
}

/// Whether the part is `0`, and no `more` stand behind it.
pub(crate) fn is_zero(part: &[&[u8]], more: bool) -> bool
    ensures { result ≡ (not more && sums.is_one (codes "0") (words_now part.now)) }
{
    !more && is_one(b"0", part)
}
