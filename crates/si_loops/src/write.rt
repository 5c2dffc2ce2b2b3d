//! Writes which arcs of a netlist are cut.

ghost use Rattle.std.specs.Prelude.{◌≡◌, [], ◌∷◌, ◌++◌, IfOk, OnOk, decimal, map};
ghost use Rattle.si_base.specs.Words.{line, text_of as text_of_lines};
ghost use Rattle.si_loops.specs.LoopsText.{IsLoopsText, cut_line, loops_text};

use crate::arcs::{Arc, arcs};
use crate::cut::cut_loops;
use si_base::graph::{Signal, signal_name};
use si_base::ids::NoMemory;
use si_base::text::Text;
use si_netlist::netlist::Netlist;
use si_words::writing::add_line;
use std::alloc::Global;

/// The text of the arcs of a netlist that are cut. It fails only where memory runs out.
pub fn write_loops(alloc: Global, netlist: &Netlist) -> Result<Text, NoMemory>
    ensures { IfOk result (IsLoopsText netlist.now) }
{
    let arcs = arcs(alloc, netlist)?;
    let split = cut_loops(alloc, arcs.as_slice())?;
    text_of(alloc, netlist.signals(), arcs.len(), split.cut.as_slice())
}

/// The text of so many arcs, and of those that are cut.
fn text_of(alloc: Global, signals: &[Signal], arcs: usize, cut: &[Arc]) -> Result<Text, NoMemory>
    ensures { IfOk result (λ text. text ≡ loops_text signals.now arcs cut.now) }
{
    let mut text = Text::copy_of(alloc, b"")?;
    add_number(alloc, &mut text, b"arcs", arcs)?;
    add_number(alloc, &mut text, b"cut", cut.len())?;
    add_cuts(&mut text, signals, cut)?;
    Ok(text)
}

/// Adds the line of a word and a number.
///
/// It fails only where memory runs out. The text may then end in a part of the line, and isn't to
/// be used.
pub fn add_number(
    alloc: Global,
    text: &mut Text,
    word: &[u8],
    number: usize,
) -> Result<(), NoMemory>
    ensures { OnOk result (text.new ≡ text.old ++ line (word.now ∷ decimal number ∷ [])) }
{
    let Ok(digits) = number.to_string(alloc) else {
        return Err(NoMemory);
    };
    add_line(text, word, &[digits.as_bytes()])
}

/// Adds a line for each arc that is cut.
fn add_cuts(text: &mut Text, signals: &[Signal], cut: &[Arc]) -> Result<(), NoMemory>
    ensures { OnOk result
        (text.new ≡ text.old ++ text_of_lines (map (cut_line signals.now) cut.now)) }
{
    for arc in cut {
        let gate = signal_name(signals, arc.to);
        let pin = signal_name(signals, arc.from);
        add_line(text, b"cut", &[gate, pin])?;
    }
    Ok(())
}
