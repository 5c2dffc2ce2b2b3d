//! Insertions as words of a line.

ghost use Rattle.std.specs.Prelude.{◌≡◌, ◌++◌, OnOk};
ghost use Rattle.si_circuit.specs.InsertionWords.{all_insertion_words, insertion_words as words_of};
ghost use Rattle.si_words.specs.Loops.Writing.{spaced};

use si_base::ids::NoMemory;
use si_base::text::Text;
use si_netlist::gate::Insert;
use si_netlist::write::add_words;
use si_words::writing::add_word;

/// Adds for each insertion a bar, its name, `up` and the states at which the signal rises, `down`
/// and those at which it falls, each word with a blank before it.
///
/// It fails only where memory runs out. The text may then end in a part of the words, and isn't to
/// be used.
pub fn add_insertions(text: &mut Text, inserts: &[Insert]) -> Result<(), NoMemory>
    ensures { OnOk result (text.new ≡ text.old ++ spaced (all_insertion_words inserts.now)) }
{
    for insert in inserts {
        add_insertion(text, insert)?;
    }
    Ok(())
}

/// Adds the words of an insertion.
fn add_insertion(text: &mut Text, insert: &Insert) -> Result<(), NoMemory>
    ensures { OnOk result (text.new ≡ text.old ++ spaced (words_of insert.now)) }
{
    add_word(text, b"|")?;
    add_word(text, insert.name.bytes())?;
    add_word(text, b"up")?;
    add_words(text, &insert.up)?;
    add_word(text, b"down")?;
    add_words(text, &insert.down)
}
