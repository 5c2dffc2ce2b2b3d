//! Writes which gates of a netlist settle, and which outputs to force.

ghost use Rattle.std.specs.Prelude.{◌≡◌, ◌<◌, [], ◌∷◌, ◌++◌, All, IfOk, OnOk, codes, map};
ghost use Rattle.std.specs.Prelude.{if◌then◌else◌};
ghost use Rattle.si_base.specs.Bytes.{digit_one, digit_zero};
ghost use Rattle.si_base.specs.Graph.{name_of};
ghost use Rattle.si_base.specs.Limits.{max_signals};
ghost use Rattle.si_base.specs.Words.{line, text_of as text_of_lines};
ghost use Rattle.si_settled.specs.ResetText.{IsResetText, force_line, reset_text};
ghost use Rattle.si_words.specs.Loops.Writing.{spaced};

use crate::forced::{forced, settling};
use si_base::graph::{Signal, signal_name};
use si_base::ids::{Code, NoMemory, Sig};
use si_base::text::Text;
use si_loops::write::add_number;
use si_netlist::netlist::Netlist;
use si_words::writing::{add_line, add_word};
use std::alloc::Global;

/// The text of the gates of a netlist that settle, and of the outputs to force. It fails only where
/// memory runs out.
pub fn write_reset(alloc: Global, netlist: &Netlist) -> Result<Text, NoMemory>
    ensures { IfOk result (IsResetText netlist.now) }
{
    let settling = settling(alloc, netlist)?;
    let forced = forced(alloc, netlist)?;
    text_of(alloc, netlist, settling.as_slice(), forced.as_slice())
}

/// The text of these gates that settle, and of these outputs to force.
fn text_of(
    alloc: Global,
    netlist: &Netlist,
    settling: &[Sig],
    forced: &[Sig],
) -> Result<Text, NoMemory>
    requires { All (λ z. z < max_signals) forced.now }
    ensures { IfOk result (λ text. text ≡ reset_text netlist.now settling.now forced.now) }
{
    let signals = netlist.signals();
    let mut text = Text::copy_of(alloc, b"")?;
    add_number(alloc, &mut text, b"gates", netlist.gates().len())?;
    add_signals(&mut text, b"settle", signals, settling)?;
    add_forces(&mut text, signals, netlist.start(), forced)?;
    Ok(text)
}

/// Adds the line of a word and the names of the signals.
fn add_signals(
    text: &mut Text,
    word: &[u8],
    signals: &[Signal],
    these: &[Sig],
) -> Result<(), NoMemory>
    ensures { OnOk result
        (text.new ≡ text.old ++ line (word.now ∷ map (name_of signals.now) these.now)) }
{
    text.add(word)?;
    add_names(text, signals, these)?;
    text.add(b"\n")
}

/// Adds the names of the signals, each with a blank before it.
fn add_names(text: &mut Text, signals: &[Signal], these: &[Sig]) -> Result<(), NoMemory>
    ensures { OnOk result
        (text.new ≡ text.old ++ spaced (map (name_of signals.now) these.now)) }
{
    for z in these {
        add_word(text, signal_name(signals, *z))?;
    }
    Ok(())
}

/// Adds a line for each output to force, with its start value.
fn add_forces(
    text: &mut Text,
    signals: &[Signal],
    start: Code,
    forced: &[Sig],
) -> Result<(), NoMemory>
    requires { All (λ z. z < max_signals) forced.now }
    ensures { OnOk result
        (text.new ≡ text.old ++ text_of_lines (map (force_line signals.now start) forced.now)) }
{
    for z in forced {
        let name = signal_name(signals, *z);
        add_force(text, name, digit(start.get(*z)))?;
    }
    Ok(())
}

/// Adds the line of an output with this name and this value.
fn add_force<'a>(text: &mut Text, name: &'a [u8], value: &'a [u8]) -> Result<(), NoMemory>
    ensures { OnOk result
        (text.new ≡ text.old ++ line (codes "force" ∷ name.now ∷ value.now ∷ [])) }
{
    add_line(text, b"force", &[name, value])
}

/// The digit of a value.
fn digit(value: bool) -> &'static [u8]
    ensures { result.now ≡ (if value then digit_one else digit_zero) ∷ [] }
{
    if value { b"1" } else { b"0" }
}
