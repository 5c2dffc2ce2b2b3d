//! Writes the text of a library.

ghost use Rattle.std.specs.Prelude.{◌≡◌, ◌++◌, IfOk, OnOk, map};
ghost use Rattle.si_base.specs.GivenGraph.{signals_of};
ghost use Rattle.si_base.specs.Words.{line, text_of};
ghost use Rattle.si_base.specs.declared.graph.SigKind.TheVariants.{Input};
ghost use Rattle.si_genlib.specs.Written.{cell_line, library_text, signals_in};
ghost use Rattle.si_words.specs.Loops.Writing.{spaced};

use si_base::graph::{SigKind, Signal};
use si_base::ids::NoMemory;
use si_base::text::{Name, Text};
use si_cell::cell::Cell;
use si_cell::library::Library;
use si_cube::write_sums::add_sum;
use si_words::writing::{add_line, add_word};
use std::alloc::Global;

/// The name that stands for a cell's own output.
pub(crate) const OWN: &[u8] = b"q";

/// The text of a library: its name, a line for each cell in order, and `.end`. Literals stand in
/// the order of the pins, with `q` last. It fails only where memory runs out.
pub fn write_library(alloc: Global, library: &Library) -> Result<Text, NoMemory>
    ensures { IfOk result (λ text. text ≡ library_text library.now) }
{
    let mut text = Text::copy_of(alloc, b"")?;
    add_line(&mut text, b".library", &[library.name().bytes()])?;
    add_cell_lines(alloc, &mut text, library.cells())?;
    text.add(b".end\n")?;
    Ok(text)
}

/// Adds a line for each cell.
fn add_cell_lines(alloc: Global, text: &mut Text, cells: &[Cell]) -> Result<(), NoMemory>
    ensures { OnOk result (text.new ≡ text.old ++ text_of (map cell_line cells.now)) }
{
    for cell in cells {
        add_cell_line(alloc, text, cell)?;
    }
    Ok(())
}

/// Adds the line of a cell.
fn add_cell_line(alloc: Global, text: &mut Text, cell: &Cell) -> Result<(), NoMemory>
    ensures { OnOk result (text.new ≡ text.old ++ line (cell_line cell.now)) }
{
    let signals = cell_signals(alloc, cell)?;
    text.add(b".cell")?;
    add_word(text, cell.name.bytes())?;
    add_pins(text, &cell.pins)?;
    add_word(text, b"=")?;
    let sum = cell.sum.widened(alloc)?;
    add_sum(text, &signals, &sum)?;
    text.add(b"\n")
}

/// Adds the pins, each with a blank before it.
fn add_pins(text: &mut Text, pins: &[Name]) -> Result<(), NoMemory>
    ensures { OnOk result (text.new ≡ text.old ++ spaced pins.now) }
{
    for pin in pins {
        add_word(text, pin.bytes())?;
    }
    Ok(())
}

/// The signals of the cell's sum: its pins, and its own output behind them.
fn cell_signals(alloc: Global, cell: &Cell) -> Result<Vec<Signal>, NoMemory>
    ensures { IfOk result (λ signals. signals.items ≡ signals_in cell.now) }
{
    let mut signals = pin_signals(alloc, &cell.pins)?;
    let name = Name::copy_of(alloc, OWN)?;
    let kind = SigKind::Output;
    let own = Signal { name, kind };
    signals.push(own)?;
    Ok(signals)
}

/// The pins as inputs.
fn pin_signals(alloc: Global, pins: &[Name]) -> Result<Vec<Signal>, NoMemory>
    ensures { IfOk result (λ signals. signals.items ≡ signals_of Input pins.now) }
{
    let mut signals = Vec::new(alloc);
    for pin in pins {
        let name = Name::copy_of(alloc, pin.bytes())?;
        let kind = SigKind::Input;
        signals.push(Signal { name, kind })?;
    }
    Ok(signals)
}
