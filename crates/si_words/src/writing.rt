//! Lines of words, as the tool writes them.

ghost use Rattle.std.specs.Prelude.{◌≡◌, ◌∷◌, ◌++◌, OnOk};
ghost use Rattle.si_base.specs.Bytes.{space};
ghost use Rattle.si_base.specs.NetlistText.{names_of, same_kind as is_same_kind};
ghost use Rattle.si_base.specs.Words.{line};
ghost use Rattle.si_words.specs.Loops.Reads.{words_now};
ghost use Rattle.si_words.specs.Loops.Writing.{spaced};

use si_base::graph::{SigKind, Signal};
use si_base::ids::NoMemory;
use si_base::text::Text;

/// Adds a blank and the word.
///
/// It fails only where memory runs out. The text may then end in the blank, and isn't to be used.
pub fn add_word(text: &mut Text, word: &[u8]) -> Result<(), NoMemory>
    ensures { OnOk result (text.new ≡ text.old ++ space ∷ word.now) }
{
    text.add(b" ")?;
    text.add(word)
}

/// Adds the words, each with a blank before it.
fn add_words(text: &mut Text, words: &[&[u8]]) -> Result<(), NoMemory>
    ensures { OnOk result (text.new ≡ text.old ++ spaced (words_now words.now)) }
{
    for word in words {
        add_word(text, *word)?;
    }
    Ok(())
}

/// Adds the line of these words: one blank between them, and the line end.
///
/// It fails only where memory runs out. The text may then end in a part of the line, and isn't to
/// be used.
pub fn add_line(text: &mut Text, first: &[u8], others: &[&[u8]]) -> Result<(), NoMemory>
    ensures { OnOk result (text.new ≡ text.old ++ line (first.now ∷ words_now others.now)) }
{
    text.add(first)?;
    add_words(text, others)?;
    text.add(b"\n")
}

/// Adds a line of a word and the names of the signals of a kind.
///
/// It fails only where memory runs out. The text may then end in a part of the line, and isn't to
/// be used.
pub fn add_names_line(
    text: &mut Text,
    word: &[u8],
    signals: &[Signal],
    kind: SigKind,
) -> Result<(), NoMemory>
    ensures { OnOk result (text.new ≡ text.old ++ line (word.now ∷ names_of kind signals.now)) }
{
    text.add(word)?;
    add_names_of(text, signals, kind)?;
    text.add(b"\n")
}

/// Adds the names of the signals of a kind, each with a blank before it.
fn add_names_of(text: &mut Text, signals: &[Signal], kind: SigKind) -> Result<(), NoMemory>
    ensures { OnOk result (text.new ≡ text.old ++ spaced (names_of kind signals.now)) }
{
    for signal in signals {
        if !same_kind(kind, signal.kind) {
            continue;
        }
        add_word(text, signal.name.bytes())?;
    }
    Ok(())
}

/// Whether two kinds are the same.
fn same_kind(a: SigKind, b: SigKind) -> bool
    ensures { result ≡ is_same_kind a b }
{
    a == b
}
