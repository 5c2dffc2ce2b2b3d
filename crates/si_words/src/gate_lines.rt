//! Words of gate lines: a word alone, and the words on both sides of a mark.

ghost use Rattle.std.specs.Prelude.{◌≡◌, option_map, length, ◌≤◌, not, bytes_eq, codes};
ghost use Rattle.std.specs.Prelude.{IfOk};
ghost use Rattle.std.specs.List.{prefix_len};
ghost use Rattle.si_words.specs.Loops.Reads.{words_now, both_now, parts_now};
ghost use Rattle.si_words.specs.Sums as sums;

use std::alloc::{AllocError, Global};

/// Whether the words are this word alone.
pub fn is_one(word: &[u8], words: &[&[u8]]) -> bool
    ensures { result ≡ sums.is_one word.now (words_now words.now) }
{
    match words {
        [only] => word == *only,
        _ => false,
    }
}

fn count_before(mark: &[u8], words: &[&[u8]]) -> usize
    ensures within { result ≤ length words.now }
    ensures len { result ≡ prefix_len (λ w. not (bytes_eq mark.now w.now)) words.now }
{
    words.iter().take_while(|w| mark != **w).count()
}

fn len_before(mark: &[u8], words: &[&[u8]]) -> usize
    ensures within { result ≤ length words.now }
    ensures len { result ≡ sums.len_before mark.now (words_now words.now) }
{
    count_before(mark, words)
}

/// The words on both sides of the first that is the mark, or `None` where no word is.
pub fn cut_at<'s, 'a>(
    mark: &[u8],
    words: &'s [&'a [u8]],
) -> Option<(&'s [&'a [u8]], &'s [&'a [u8]])>
    ensures { option_map both_now result ≡ sums.cut_at mark.now (words_now words.now) }
{
    let len = len_before(mark, words);
    if len < words.len() {
        let (before, _) = words.split_at(len);
        let (_, after) = words.split_at(len + 1);
        Some((before, after))
    } else {
        None
    }
}

/// The words between the words `+`, each run of them one cube of a sum.
pub fn parts_of<'s, 'a>(
    alloc: Global,
    words: &'s [&'a [u8]],
) -> Result<Vec<&'s [&'a [u8]]>, AllocError>
    ensures { IfOk result
        (λ parts. parts_now parts.items ≡ sums.parts_at (codes "+") (words_now words.now)) }
{
    words.split(|w| b"+".as_slice() == *w).collect(alloc)
}
