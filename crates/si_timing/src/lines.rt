//! Writes the lines of arcs inside instances.

ghost use Rattle.std.specs.Prelude.{◌≡◌, ◌≤◌, ◌++◌, OnOk, length};
ghost use Rattle.si_cell.specs.Limits.{max_pins};
ghost use Rattle.si_netlist.specs.Loops.Parts.{gate_seen};
ghost use Rattle.si_timing.specs.Loops.Writing.{lines, pin_arc};
ghost use Rattle.si_timing.specs.Instances.{arc_from};
ghost use Rattle.si_timing.specs.TimingText.{cut_of_gate, disabled_line, own_arcs, own_of_gate};
ghost use Rattle.si_timing.specs.TimingText.{pin_arcs};

use crate::feedback::reads_own;
use si_base::graph::{Signal, signal_name};
use si_base::ids::{Literal, NoMemory, Sig};
use si_base::text::Text;
use si_cell::cell::Cell;
use si_genlib::ports::{PortedLibrary, Ports};
use si_loops::arcs::Arc;
use si_netlist::gate::Gate;
use si_structure::decide::place_of;
use std::alloc::Global;

/// Adds the lines for an arc that is cut, at the gate where it ends: none where that has no cell.
///
/// It fails only where memory runs out. The text may then end in a part of them, and isn't to be
/// used.
pub(crate) fn add_cut(
    text: &mut Text,
    library: &PortedLibrary,
    signals: &[Signal],
    arc: &Arc,
    gate: &Gate,
) -> Result<(), NoMemory>
    ensures { OnOk result (text.new ≡ text.old
        ++ lines (cut_of_gate library.now signals.now arc.now (gate_seen gate.now))) }
{
    match gate {
        Gate::Cell { name, literals, .. } => {
            let cells = library.library().cells();
            match place_of(cells, name.bytes()) {
                Some(k) => {
                    let ports = &library.ports()[k as usize];
                    add_pins(text, signals, arc, ports, literals.as_slice())
                }
                None => Ok(()),
            }
        }
        Gate::Sum(_) | Gate::Gc { .. } => Ok(()),
    }
}

/// Adds the line of each pin that has a literal of the signal at which the arc begins.
fn add_pins(
    text: &mut Text,
    signals: &[Signal],
    arc: &Arc,
    ports: &Ports,
    literals: &[Literal],
) -> Result<(), NoMemory>
    ensures { OnOk result (text.new ≡ text.old
        ++ lines (pin_arcs signals.now arc.now literals.now ports.now)) }
{
    let mut literals = literals;
    for pin in ports.pins.as_slice() {
        let [literal, rest @ ..] = literals else {
            return Ok(());
        };
        add_pin(text, signals, arc, ports, pin.bytes(), literal)?;
        literals = rest;
    }
    Ok(())
}

/// Adds the line of a pin with that literal, if it is of the signal at which the arc begins.
fn add_pin(
    text: &mut Text,
    signals: &[Signal],
    arc: &Arc,
    ports: &Ports,
    pin: &[u8],
    literal: &Literal,
) -> Result<(), NoMemory>
    ensures { OnOk result (text.new ≡ text.old
        ++ lines (pin_arc signals.now arc.now ports.now pin.now literal.now)) }
{
    if literal.sig == arc.from {
        add_arc(text, signals, arc.to, ports, pin)
    } else {
        Ok(())
    }
}

/// Adds the line of the port by which the gate of a signal reads its own output: none where it has
/// no cell, or one that doesn't.
///
/// It fails only where memory runs out. The text may then end in a part of it, and isn't to be
/// used.
pub(crate) fn add_feedback(
    alloc: Global,
    text: &mut Text,
    library: &PortedLibrary,
    signals: &[Signal],
    z: Sig,
    gate: &Gate,
) -> Result<(), NoMemory>
    ensures { OnOk result (text.new ≡ text.old
        ++ lines (own_of_gate library.now signals.now z (gate_seen gate.now))) }
{
    match gate {
        Gate::Cell { name, .. } => {
            let cells = library.library().cells();
            match place_of(cells, name.bytes()) {
                Some(k) => {
                    let ports = &library.ports()[k as usize];
                    add_own(alloc, text, signals, z, &cells[k as usize], ports)
                }
                None => Ok(()),
            }
        }
        Gate::Sum(_) | Gate::Gc { .. } => Ok(()),
    }
}

/// Adds the line of the port by which the cell reads its own output, if it does.
fn add_own(
    alloc: Global,
    text: &mut Text,
    signals: &[Signal],
    z: Sig,
    cell: &Cell,
    ports: &Ports,
) -> Result<(), NoMemory>
    requires { length cell.now.pins ≤ max_pins }
    ensures { OnOk result (text.new ≡ text.old
        ++ lines (own_arcs signals.now z cell.now ports.now)) }
{
    if !reads_own(cell) {
        return Ok(());
    }
    let mut port = Text::copy_of(alloc, ports.output.bytes())?;
    port.add(b"$in")?;
    add_arc(text, signals, z, ports, port.bytes())
}

/// Adds the line of the arc from the port of that name to the output of the gate of a signal.
fn add_arc(
    text: &mut Text,
    signals: &[Signal],
    z: Sig,
    ports: &Ports,
    from: &[u8],
) -> Result<(), NoMemory>
    ensures { OnOk result (text.new ≡ text.old
        ++ disabled_line (arc_from signals.now z ports.now from.now)) }
{
    text.add(b"set_disable_timing -from {")?;
    text.add(from)?;
    text.add(b"} -to {")?;
    text.add(ports.output.bytes())?;
    text.add(b"} [get_cells {")?;
    text.add(signal_name(signals, z))?;
    text.add(b"$gate}]\n")
}
