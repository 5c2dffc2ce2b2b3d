//! Writes the text of a netlist.

ghost use Rattle.std.specs.Prelude.{◌≡◌, ◌<◌, ◌≤◌, [], ◌∷◌, ◌++◌, IfOk, OnOk, length};
ghost use Rattle.std.specs.Prelude.{map, if◌then◌else◌};
ghost use Rattle.si_base.specs.Bytes.{digit_zero, digit_one};
ghost use Rattle.si_base.specs.Words.{line, text_of};
ghost use Rattle.si_base.specs.Limits.{max_signals};
ghost use Rattle.si_base.specs.NetlistText.{netlist_text, word_if_any, bits_from, insert_line};
ghost use Rattle.si_words.specs.Loops.Writing.{spaced};

use crate::gate::Insert;
use crate::name_list::NameList;
use crate::netlist::Netlist;
use crate::write_gates::add_gate_lines;
use si_base::graph::{SigKind, Signal};
use si_base::ids::{Code, NoMemory, Sig};
use si_base::text::Text;
use si_words::writing::{add_names_line, add_word};
use std::alloc::Global;

/// The text of a netlist, in version 2. It fails only where memory runs out.
pub fn write_netlist(alloc: Global, netlist: &Netlist) -> Result<Text, NoMemory>
    ensures { IfOk result (λ text. text ≡ netlist_text netlist.now) }
{
    let signals = netlist.signals();
    let mut text = Text::copy_of(alloc, b".version 2\n.model")?;
    add_word(&mut text, netlist.model().bytes())?;
    text.add(b"\n")?;
    add_names_line(&mut text, b".inputs", signals, SigKind::Input)?;
    add_names_line(&mut text, b".outputs", signals, SigKind::Output)?;
    add_names_line(&mut text, b".internal", signals, SigKind::Internal)?;
    add_names_line(&mut text, b".inserted", signals, SigKind::Inserted)?;
    add_values_line(&mut text, b".start", signals, netlist.start())?;
    add_insert_lines(&mut text, netlist.inserts())?;
    text.add(b".gates\n")?;
    add_gate_lines(&mut text, signals, netlist.gates())?;
    text.add(b".end\n")?;
    Ok(text)
}

/// Adds a line of a word and the signals' values: a digit each, in their order, and the word alone
/// where there is no signal.
///
/// It fails only where memory runs out. The text may then end in a part of the line, and isn't to
/// be used.
pub fn add_values_line(
    text: &mut Text,
    word: &[u8],
    signals: &[Signal],
    values: Code,
) -> Result<(), NoMemory>
    requires { length signals.now ≤ max_signals }
    ensures { OnOk result
        (text.new ≡ text.old ++ line (word.now ∷ word_if_any (bits_from 0 signals.now values))) }
{
    text.add(word)?;
    add_values(text, signals, values)?;
    text.add(b"\n")
}

/// Adds the word of the signals' values, where there is a signal.
fn add_values(text: &mut Text, signals: &[Signal], values: Code) -> Result<(), NoMemory>
    requires { length signals.now ≤ max_signals }
    ensures { OnOk result
        (text.new ≡ text.old ++ spaced (word_if_any (bits_from 0 signals.now values))) }
{
    if signals.is_empty() {
        return Ok(());
    }
    text.add(b" ")?;
    add_bits(text, signals, values)
}

/// Adds a digit for each signal: its value in the code.
fn add_bits(text: &mut Text, signals: &[Signal], code: Code) -> Result<(), NoMemory>
    requires { length signals.now ≤ max_signals }
    ensures { OnOk result (text.new ≡ text.old ++ bits_from 0 signals.now code) }
{
    for i in 0..signals.len() {
        text.add(digit(code.get(Sig(i as u8))))?;
    }
    Ok(())
}

/// The digit of a value.
fn digit(value: bool) -> &'static [u8]
    ensures { result.now ≡ (if value then digit_one else digit_zero) ∷ [] }
{
    if value { b"1" } else { b"0" }
}

/// Adds a line for each insertion.
fn add_insert_lines(text: &mut Text, inserts: &[Insert]) -> Result<(), NoMemory>
    ensures { OnOk result (text.new ≡ text.old ++ text_of (map insert_line inserts.now)) }
{
    for insert in inserts {
        add_insert_line(text, insert)?;
    }
    Ok(())
}

/// Adds the line of an insertion.
fn add_insert_line(text: &mut Text, insert: &Insert) -> Result<(), NoMemory>
    ensures { OnOk result (text.new ≡ text.old ++ line (insert_line insert.now)) }
{
    text.add(b".insert")?;
    add_word(text, insert.name.bytes())?;
    add_word(text, b"up")?;
    add_words(text, &insert.up)?;
    add_word(text, b"down")?;
    add_words(text, &insert.down)?;
    text.add(b"\n")
}

/// Adds the words, each with a blank before it.
///
/// It fails only where memory runs out. The text may then end in a part of the words, and isn't to
/// be used.
pub fn add_words(text: &mut Text, words: &NameList) -> Result<(), NoMemory>
    ensures { OnOk result (text.new ≡ text.old ++ spaced words.now) }
{
    for k in 0..words.len() {
        add_word(text, words.get(k))?;
    }
    Ok(())
}
