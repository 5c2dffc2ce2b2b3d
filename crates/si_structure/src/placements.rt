//! Instances of cells.

ghost use Rattle.std.specs.Prelude.{◌≡◌, ◌<◌, ◌≤◌, [], ◌∷◌, ◌++◌, IfOk, OnOk, bytes_eq, codes};
ghost use Rattle.std.specs.Prelude.{length, map};
ghost use Rattle.std.specs.List.{join_by, list_any};
ghost use Rattle.si_base.specs.NetlistText.{name_of};
ghost use Rattle.si_netlist.specs.Loops.Parts.{gate_seen};
ghost use Rattle.si_cell.specs.Limits.{max_pins};
ghost use Rattle.si_structure.specs.StructureText as structure;
ghost use Rattle.si_structure.specs.StructureText.{connection_text, own_connections, placed};
ghost use Rattle.si_structure.specs.StructureText.{placement_line, ported_cells};
ghost use Rattle.si_structure.specs.Loops.Deciding.{ported_at};
ghost use Rattle.si_structure.specs.Loops.Writing.{cell_lines, connection_texts, gate_lines};
ghost use Rattle.si_structure.specs.Loops.Writing.{inverter_line, inverter_lines, placement_lines};

use crate::cells::{feedback, reads_own};
use crate::instance_names::{free_net, instance_name, inverted_net, inverter_name};
use crate::lookup::{cell_named, inverter_of, ports_at};
use si_base::graph::{Signal, signal_name};
use si_base::ids::{Literal, NoMemory, Sig};
use si_base::text::{Name, Text};
use si_cell::cell::Cell;
use si_genlib::ports::{PortedLibrary, Ports};
use si_netlist::gate::Gate;
use si_verilog::names::add_name;
use std::alloc::Global;

/// The nets of an instance.
#[derive(Drop)]
struct Nets {
    /// Those of the pins, in their order.
    pins: Vec<Text>,
    /// That which the cell reads as its own output, if it does.
    read: Text,
    /// That which the output drives.
    driven: Text,
}

/// Adds a line for each instance: those of the inverters of each gate, and behind them its own.
///
/// It fails only where memory runs out. The text may then end in a part of them, and isn't to be
/// used.
pub(crate) fn add_placements(
    alloc: Global,
    text: &mut Text,
    library: &PortedLibrary,
    signals: &[Signal],
    forced: &[Sig],
    gates: &[Gate],
) -> Result<(), NoMemory>
    ensures { OnOk result (text.new ≡ text.old ++ placement_lines (ported_cells library.now)
        signals.now forced.now signals.now (map gate_seen gates.now)) }
{
    let mut gates = gates;
    for signal in signals {
        if !signal.kind.is_driven() {
            continue;
        }
        let [gate, rest @ ..] = gates else {
            return Ok(());
        };
        let name = signal.name.bytes();
        add_gate(alloc, text, library, signals, forced, name, gate)?;
        gates = rest;
    }
    Ok(())
}

/// Adds the lines of the gate of a signal with this name: none where it has no cell.
fn add_gate(
    alloc: Global,
    text: &mut Text,
    library: &PortedLibrary,
    signals: &[Signal],
    forced: &[Sig],
    name: &[u8],
    gate: &Gate,
) -> Result<(), NoMemory>
    ensures { OnOk result (text.new ≡ text.old ++ gate_lines (ported_cells library.now)
        signals.now forced.now name.now (gate_seen gate.now)) }
{
    match gate {
        Gate::Cell {
            name: cell,
            literals,
            ..
        } => match cell_named(library, cell.bytes()) {
            Some(k) => {
                let literals = literals.as_slice();
                add_instances(alloc, text, library, k, signals, forced, name, literals)
            }
            None => Ok(()),
        },
        Gate::Sum(_) | Gate::Gc { .. } => Ok(()),
    }
}

/// Adds the lines of the cell at that place with these literals, as the gate of a signal of this
/// name.
fn add_instances(
    alloc: Global,
    text: &mut Text,
    library: &PortedLibrary,
    k: u8,
    signals: &[Signal],
    forced: &[Sig],
    name: &[u8],
    literals: &[Literal],
) -> Result<(), NoMemory>
    requires { k < length library.now.library.cells }
    ensures { OnOk result (text.new ≡ text.old ++ cell_lines (ported_cells library.now) signals.now
        forced.now name.now (ported_at library.now k) literals.now) }
{
    let ports = ports_at(library, k);
    let pins = ports.pins.as_slice();
    add_inverters(alloc, text, library, signals, name, pins, literals)?;
    let nets = gate_nets(alloc, signals, forced, name, pins, literals)?;
    let instance = instance_name(alloc, name)?;
    let cell = library.library().cell(k);
    add_placement(alloc, text, instance.bytes(), cell, ports, &nets)
}

/// The nets of the instance for the gate of a signal of this name, with these literals at its pins.
fn gate_nets(
    alloc: Global,
    signals: &[Signal],
    forced: &[Sig],
    name: &[u8],
    pins: &[Name],
    literals: &[Literal],
) -> Result<Nets, NoMemory>
    ensures pins { IfOk result (λ nets. nets.pins.items
        ≡ structure.pin_nets signals.now name.now pins.now literals.now) }
    ensures own { IfOk result (λ nets. (nets.read ≡ name.now)
        × (nets.driven ≡ structure.driven_net signals.now forced.now name.now)) }
{
    Ok(Nets {
        pins: pin_nets(alloc, signals, name, pins, literals)?,
        read: Text::copy_of(alloc, name)?,
        driven: driven_net(alloc, signals, forced, name)?,
    })
}

/// The net that the gate of a signal of this name drives: the signal, or its free net if it is
/// forced.
fn driven_net(
    alloc: Global,
    signals: &[Signal],
    forced: &[Sig],
    name: &[u8],
) -> Result<Text, NoMemory>
    ensures { IfOk result
        (λ net. net ≡ structure.driven_net signals.now forced.now name.now) }
{
    if is_forced(signals, forced, name) {
        free_net(alloc, name)
    } else {
        Text::copy_of(alloc, name)
    }
}

/// Whether one of the forced signals has the name.
fn is_forced(signals: &[Signal], forced: &[Sig], name: &[u8]) -> bool
    ensures { result ≡ list_any (λ z. bytes_eq (name_of signals.now z) name.now) forced.now }
{
    forced.iter().any(|z| signal_name(signals, *z) == name)
}

/// The net at each pin.
fn pin_nets(
    alloc: Global,
    signals: &[Signal],
    name: &[u8],
    pins: &[Name],
    literals: &[Literal],
) -> Result<Vec<Text>, NoMemory>
    ensures { IfOk result (λ nets. nets.items
        ≡ structure.pin_nets signals.now name.now pins.now literals.now) }
{
    let mut nets = Vec::new(alloc);
    let mut literals = literals;
    for pin in pins {
        let [literal, rest @ ..] = literals else {
            return Ok(nets);
        };
        nets.push(pin_net(alloc, signals, name, pin.bytes(), *literal)?)?;
        literals = rest;
    }
    Ok(nets)
}

/// The net that a pin with the literal reads: the signal's, or that of the pin's inverter.
fn pin_net(
    alloc: Global,
    signals: &[Signal],
    name: &[u8],
    pin: &[u8],
    literal: Literal,
) -> Result<Text, NoMemory>
    ensures { IfOk result
        (λ net. net ≡ structure.pin_net signals.now name.now pin.now literal) }
{
    if literal.plain {
        Text::copy_of(alloc, signal_name(signals, literal.sig))
    } else {
        inverted_net(alloc, name, pin)
    }
}

/// Adds the line of an inverter for each of these pins that has a complemented literal.
fn add_inverters(
    alloc: Global,
    text: &mut Text,
    library: &PortedLibrary,
    signals: &[Signal],
    name: &[u8],
    pins: &[Name],
    literals: &[Literal],
) -> Result<(), NoMemory>
    ensures { OnOk result (text.new ≡ text.old ++ inverter_lines (ported_cells library.now)
        signals.now name.now pins.now literals.now) }
{
    let mut literals = literals;
    for pin in pins {
        let [literal, left @ ..] = literals else {
            return Ok(());
        };
        literals = left;
        if literal.plain {
            continue;
        }
        let source = signal_name(signals, literal.sig);
        add_inverter(alloc, text, library, name, pin.bytes(), source)?;
    }
    Ok(())
}

/// Adds the line of an inverter from the net, at a pin of the gate of a signal of this name: none
/// where the library has no inverter.
fn add_inverter(
    alloc: Global,
    text: &mut Text,
    library: &PortedLibrary,
    name: &[u8],
    pin: &[u8],
    source: &[u8],
) -> Result<(), NoMemory>
    ensures { OnOk result (text.new ≡ text.old
        ++ inverter_line (ported_cells library.now) name.now pin.now source.now) }
{
    let Some(k) = inverter_of(library) else {
        return Ok(());
    };
    let nets = inverter_nets(alloc, name, pin, source)?;
    let instance = inverter_name(alloc, name, pin)?;
    let cell = library.library().cell(k);
    add_placement(
        alloc,
        text,
        instance.bytes(),
        cell,
        ports_at(library, k),
        &nets,
    )
}

/// The nets of an inverter from a net, at a pin of the gate of a signal of this name.
fn inverter_nets(alloc: Global, name: &[u8], pin: &[u8], source: &[u8]) -> Result<Nets, NoMemory>
    ensures pins { IfOk result (λ nets. nets.pins.items ≡ source.now ∷ []) }
    ensures own { IfOk result (λ nets. (nets.read ≡ structure.inverted_net name.now pin.now)
        × (nets.driven ≡ structure.inverted_net name.now pin.now)) }
{
    let mut pins = Vec::new(alloc);
    pins.push(Text::copy_of(alloc, source)?)?;
    Ok(Nets {
        pins,
        read: inverted_net(alloc, name, pin)?,
        driven: inverted_net(alloc, name, pin)?,
    })
}

/// Adds the line of an instance of the cell with these nets.
fn add_placement(
    alloc: Global,
    text: &mut Text,
    instance: &[u8],
    cell: &Cell,
    ports: &Ports,
    nets: &Nets,
) -> Result<(), NoMemory>
    requires { length cell.now.pins ≤ max_pins }
    ensures { OnOk result (text.new ≡ text.old ++ placement_line (placed instance.now
        (record { cell = cell.now; ports = ports.now }) nets.now.pins.items nets.now.read
        nets.now.driven)) }
{
    text.add(b"  ")?;
    add_name(text, cell.name.bytes())?;
    text.add(b" ")?;
    add_name(text, instance)?;
    text.add(b"(")?;
    add_pins(text, ports.pins.as_slice(), nets.pins.as_slice())?;
    add_own(alloc, text, cell, ports, nets)?;
    text.add(b");\n")
}

/// Adds the connection of each pin to the net in its place, each before a comma.
fn add_pins(text: &mut Text, pins: &[Name], nets: &[Text]) -> Result<(), NoMemory>
    ensures { OnOk result (text.new ≡ text.old ++ connection_texts pins.now nets.now) }
{
    let mut nets = nets;
    for pin in pins {
        let [net, rest @ ..] = nets else {
            return Ok(());
        };
        add_connection(text, pin.bytes(), net.bytes())?;
        text.add(b", ")?;
        nets = rest;
    }
    Ok(())
}

/// Adds the connections of the port by which the cell reads its own output, if it does, and of the
/// output.
fn add_own(
    alloc: Global,
    text: &mut Text,
    cell: &Cell,
    ports: &Ports,
    nets: &Nets,
) -> Result<(), NoMemory>
    requires { length cell.now.pins ≤ max_pins }
    ensures { OnOk result (text.new ≡ text.old ++ join_by connection_text (codes ", ")
        (own_connections (record { cell = cell.now; ports = ports.now }) nets.now.read
        nets.now.driven)) }
{
    if reads_own(cell) {
        let port = feedback(alloc, ports)?;
        add_connection(text, port.bytes(), nets.read.bytes())?;
        text.add(b", ")?;
    }
    add_connection(text, ports.output.bytes(), nets.driven.bytes())
}

/// Adds the connection of a port to a net.
fn add_connection(text: &mut Text, port: &[u8], net: &[u8]) -> Result<(), NoMemory>
    ensures { OnOk result (text.new
        ≡ text.old ++ connection_text (record { port = port.now; net = net.now })) }
{
    text.add(b".")?;
    add_name(text, port)?;
    text.add(b"(")?;
    add_name(text, net)?;
    text.add(b")")
}
