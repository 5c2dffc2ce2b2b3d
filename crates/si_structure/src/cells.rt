//! Cells as modules.

ghost use Rattle.std.specs.Prelude.{◌≡◌, ◌<◌, ◌≤◌, ◌==◌, ◌++◌, IfOk, OnOk, length, map};
ghost use Rattle.std.specs.List.{list_any};
ghost use Rattle.si_base.specs.Limits.{code_width};
ghost use Rattle.si_cell.specs.Limits.{max_pins};
ghost use Rattle.si_verilog.specs.ModuleText.{verilog_text};
ghost use Rattle.si_structure.specs.StructureText as structure;
ghost use Rattle.si_structure.specs.StructureText.{cell_netlist, input};

use crate::heads::add_head;
use si_base::graph::{SigKind, Signal};
use si_base::ids::{Code, NoMemory, Sig};
use si_base::text::{Name, Text};
use si_cell::cell::Cell;
use si_cell::pin_sum::PinCube;
use si_cube::cube::Cube;
use si_genlib::ports::Ports;
use si_netlist::gate::Gate;
use si_verilog::names::add_name;
use si_verilog::write::add_gate;
use std::alloc::Global;

/// What stands behind the output's name in that of the port by which a cell reads its own output.
const FEEDBACK: &[u8] = b"$in";

/// Adds the module of a cell: its pins are ports, and so are the own output and, where the sum
/// reads that, the port by which it does. An assign has the sum.
///
/// It fails only where memory runs out. The text may then end in a part of it, and isn't to be
/// used.
pub(crate) fn add_cell(
    alloc: Global,
    text: &mut Text,
    cell: &Cell,
    ports: &Ports,
) -> Result<(), NoMemory>
    requires { length cell.now.pins ≤ max_pins }
    ensures { OnOk result (text.new ≡ text.old
        ++ verilog_text (cell_netlist (record { cell = cell.now; ports = ports.now }))) }
{
    let made = cell_signals(alloc, cell, ports)?;
    let signals = made.as_slice();
    let gate = Gate::Sum(cell.sum.widened(alloc)?);
    add_head(text, cell.name.bytes(), &None, signals)?;
    text.add(b"  assign ")?;
    add_name(text, ports.output.bytes())?;
    text.add(b" = ")?;
    add_gate(alloc, text, signals, ports.output.bytes(), &gate)?;
    text.add(b";\nendmodule\n")
}

/// The signals of a cell as a module.
fn cell_signals(alloc: Global, cell: &Cell, ports: &Ports) -> Result<Vec<Signal>, NoMemory>
    requires { length cell.now.pins ≤ max_pins }
    ensures { IfOk result (λ v. v.items
        ≡ structure.cell_signals (record { cell = cell.now; ports = ports.now })) }
{
    let mut signals = inputs_of(alloc, ports.pins.as_slice())?;
    if reads_own(cell) {
        let name = feedback(alloc, ports)?;
        signals.push(signal_of(alloc, name.bytes(), SigKind::Input)?)?;
    }
    signals.push(signal_of(alloc, ports.output.bytes(), SigKind::Output)?)?;
    Ok(signals)
}

/// The port by which a cell reads its own output. It fails only where memory runs out.
pub(crate) fn feedback(alloc: Global, ports: &Ports) -> Result<Text, NoMemory>
    ensures { IfOk result (λ name. name ≡ structure.feedback ports.now) }
{
    let mut name = Text::copy_of(alloc, ports.output.bytes())?;
    name.add(FEEDBACK)?;
    Ok(name)
}

/// Inputs of these names.
fn inputs_of(alloc: Global, names: &[Name]) -> Result<Vec<Signal>, NoMemory>
    ensures { IfOk result (λ v. v.items ≡ map input names.now) }
{
    let mut inputs = Vec::new(alloc);
    for name in names {
        inputs.push(signal_of(alloc, name.bytes(), SigKind::Input)?)?;
    }
    Ok(inputs)
}

/// A signal of the name and the kind.
fn signal_of(alloc: Global, name: &[u8], kind: SigKind) -> Result<Signal, NoMemory>
    ensures { IfOk result (λ s. s ≡ record { name = name.now; kind = kind }) }
{
    Ok(Signal {
        name: Name::copy_of(alloc, name)?,
        kind,
    })
}

/// Whether the cell has one pin, and its sum is the complement of that and reads nothing else.
pub(crate) fn is_inverter(cell: &Cell) -> bool
    requires { length cell.now.pins ≤ max_pins }
    ensures { result ≡ structure.is_inverter cell.now }
{
    cell.pins.len() == 1 && !reads_own(cell) && cell.value(Code(0)) && !cell.value(Code(1))
}

/// Whether the sum of the cell reads its own output.
pub(crate) fn reads_own(cell: &Cell) -> bool
    requires { length cell.now.pins ≤ max_pins }
    ensures { result ≡ structure.reads_own cell.now }
{
    let own = Sig(cell.pins.len() as u8);
    cell.sum
        .cubes()
        .iter()
        .any(|cube| has_literal_of(cube, own))
}

/// Whether the cube of a cell's sum has a literal of the signal.
fn has_literal_of(cube: &PinCube, x: Sig) -> bool
    requires { x < code_width }
    ensures { result ≡ list_any (λ l. l.sig == x) cube.now }
{
    cares_for(&cube.widened(), x)
}

/// Whether the cube has a literal of the signal.
fn cares_for(cube: &Cube, x: Sig) -> bool
    requires { x < code_width }
    ensures { result ≡ list_any (λ l. l.sig == x) cube.now }
{
    cube.care.0 >> x.0 & 1 == 1
}
