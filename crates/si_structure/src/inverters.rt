//! The wires of inverters at pins with complemented literals.

ghost use Rattle.std.specs.Prelude.{◌≡◌, ◌++◌, OnOk, map};
ghost use Rattle.si_netlist.specs.Loops.Parts.{gate_seen};
ghost use Rattle.si_verilog.specs.ModuleText.{wire_line};
ghost use Rattle.si_structure.specs.StructureText.{ported_cells};
ghost use Rattle.si_structure.specs.Loops.Writing.{gate_wires, pin_wires, wire_lines};

use crate::instance_names::inverted_net;
use crate::lookup::{cell_named, ports_at};
use si_base::graph::Signal;
use si_base::ids::{Literal, NoMemory};
use si_base::text::{Name, Text};
use si_genlib::ports::PortedLibrary;
use si_netlist::gate::Gate;
use si_verilog::names::add_name;
use std::alloc::Global;

/// Adds a line for the net of each inverter, gate by gate.
///
/// It fails only where memory runs out. The text may then end in a part of them, and isn't to be
/// used.
pub(crate) fn add_inverted_wires(
    alloc: Global,
    text: &mut Text,
    library: &PortedLibrary,
    signals: &[Signal],
    gates: &[Gate],
) -> Result<(), NoMemory>
    ensures { OnOk result (text.new ≡ text.old
        ++ wire_lines (ported_cells library.now) signals.now (map gate_seen gates.now)) }
{
    let mut gates = gates;
    for signal in signals {
        if !signal.kind.is_driven() {
            continue;
        }
        let [gate, rest @ ..] = gates else {
            return Ok(());
        };
        add_wires_of_gate(alloc, text, library, signal.name.bytes(), gate)?;
        gates = rest;
    }
    Ok(())
}

/// Adds a line for each pin with a complemented literal, of the gate of a signal of this name.
fn add_wires_of_gate(
    alloc: Global,
    text: &mut Text,
    library: &PortedLibrary,
    name: &[u8],
    gate: &Gate,
) -> Result<(), NoMemory>
    ensures { OnOk result (text.new
        ≡ text.old ++ gate_wires (ported_cells library.now) name.now (gate_seen gate.now)) }
{
    match gate {
        Gate::Cell {
            name: cell,
            literals,
            ..
        } => match cell_named(library, cell.bytes()) {
            Some(k) => {
                let pins = ports_at(library, k).pins.as_slice();
                add_wires_of_pins(alloc, text, name, pins, literals.as_slice())
            }
            None => Ok(()),
        },
        Gate::Sum(_) | Gate::Gc { .. } => Ok(()),
    }
}

/// Adds a line for each of these pins that has a complemented literal.
fn add_wires_of_pins(
    alloc: Global,
    text: &mut Text,
    name: &[u8],
    pins: &[Name],
    literals: &[Literal],
) -> Result<(), NoMemory>
    ensures { OnOk result (text.new ≡ text.old ++ pin_wires name.now pins.now literals.now) }
{
    let mut literals = literals;
    for pin in pins {
        let [literal, rest @ ..] = literals else {
            return Ok(());
        };
        literals = rest;
        if literal.plain {
            continue;
        }
        add_wire(text, inverted_net(alloc, name, pin.bytes())?.bytes())?;
    }
    Ok(())
}

/// Adds the line of a wire.
pub(crate) fn add_wire(text: &mut Text, name: &[u8]) -> Result<(), NoMemory>
    ensures { OnOk result (text.new ≡ text.old ++ wire_line name.now) }
{
    text.add(b"  wire ")?;
    add_name(text, name)?;
    text.add(b";\n")
}
