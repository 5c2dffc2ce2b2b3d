//! Writes a netlist of cells as structural Verilog.

ghost use Rattle.std.specs.Prelude.{◌≡◌, ◌++◌, IfErr, IfOk, OnOk, flat_map};
ghost use Rattle.std.specs.List.{list_any};
ghost use Rattle.si_base.specs.WellFormed.{IsNetlist};
ghost use Rattle.si_netlist.specs.Loops.Parts.{gate_seen};
ghost use Rattle.si_verilog.specs.ModuleText.{verilog_text};
ghost use Rattle.si_resettable.specs.Forcing.{IsResetOf};
ghost use Rattle.si_structure.specs.Laws.{IsPorted};
ghost use Rattle.si_structure.specs.Meaning.{MeansStructure};
ghost use Rattle.si_structure.specs.Refusals as refusals;
ghost use Rattle.si_structure.specs.Refusals.{AllPlaced, IsStructured, Shows, ShowsGates};
ghost use Rattle.si_structure.specs.StructureText as structure;
ghost use Rattle.si_structure.specs.StructureText.{cell_netlist, ported_cells, structure_text};
ghost use Rattle.si_structure.specs.StructureText.{used_cells};

use crate::cells::add_cell;
use crate::complements::Complements;
use crate::decide::check_gate;
use crate::heads::add_head;
use crate::inverters::add_inverted_wires;
use crate::lookup::inverter_of;
use crate::placements::add_placements;
use crate::refusal::Unstructured;
use crate::reset::{add_forced_lines, add_free_wires, forced_by};
use si_base::ids::{NoMemory, Sig};
use si_base::text::Text;
use si_cell::cell::Cell;
use si_cell::library::Library;
use si_genlib::ports::PortedLibrary;
use si_netlist::gate::Gate;
use si_netlist::netlist::Netlist;
use si_resettable::forcing::Forcing;
use std::alloc::Global;

/// The netlist as modules of Verilog: the cells of the library that it uses, and behind them the
/// controller, with an instance of a cell for each gate. Ports have the names that stand beside the
/// library. A complemented literal gets an inverter of its own, where that is asked for. A reset
/// input stands in front of the ports: while it is 1, the signals that it forces have their start
/// values; while it is 0, each has the value of its gate.
///
/// # Errors
///
/// `NoInstance` or `Complemented` for the first gate, in signal order, that isn't an instance of a
/// cell, or is one by complemented literals that get no inverters: it isn't asked for, or the
/// library has none. Where each gate is one, `ModelIsCell` if the model has the name of a cell that
/// is used. `NoMemory` where memory runs out.
pub fn write_structure(
    alloc: Global,
    library: &PortedLibrary,
    complements: Complements,
    reset: &Option<Forcing>,
    netlist: &Netlist,
) -> Result<Text, Unstructured>
    requires { IsResetOf netlist.now reset.now }
    ensures structured { IfOk result (λ _. IsStructured library.now complements netlist.now) }
    ensures text { IfOk result (λ text. text ≡ structure_text library.now netlist.now reset.now) }
    ensures means { IfOk result
        (λ text. MeansStructure text library.now netlist.now reset.now) }
    ensures err { IfErr result (λ e. Shows library.now complements netlist.now e) }
{
    check_gates(alloc, library.library(), complements, netlist)?;
    if model_is_cell(library, netlist) {
        return Err(Unstructured::ModelIsCell);
    }
    let text = text_of(alloc, library, reset, netlist)?;
    Ok(text)
}

/// Whether each gate is an instance, by literals that are plain or get inverters. Fails with what
/// the first other gate is, and where memory runs out.
fn check_gates(
    alloc: Global,
    library: &Library,
    complements: Complements,
    netlist: &Netlist,
) -> Result<(), Unstructured>
    ensures ok { OnOk result (AllPlaced library.now complements netlist.now) }
    ensures err { IfErr result (ShowsGates library.now complements netlist.now) }
{
    for (z, signal) in netlist.signals().iter().enumerate() {
        if !signal.kind.is_driven() {
            continue;
        }
        let sig = Sig(z as u8);
        check_gate(alloc, library, complements, sig, netlist.gate_of(sig))?;
    }
    Ok(())
}

/// Whether a cell that is used has the name of the model.
fn model_is_cell(library: &PortedLibrary, netlist: &Netlist) -> bool
    ensures { result ≡ refusals.model_is_cell library.now netlist.now }
{
    let model = netlist.model().bytes();
    library.library().cells().iter().any(|c| is_used(library, netlist, c)
        && c.name.bytes() == model)
}

/// Whether gates have the name of the cell, or it is the inverter of complemented literals.
fn is_used(library: &PortedLibrary, netlist: &Netlist, cell: &Cell) -> bool
    ensures { result ≡ structure.is_used (ported_cells library.now) netlist.now cell.now }
{
    is_of_gate(netlist, cell) || (is_called_inverter(library, cell) && is_complemented(netlist))
}

/// Whether a gate has the name of the cell.
fn is_of_gate(netlist: &Netlist, cell: &Cell) -> bool
    ensures { result ≡ list_any (structure.is_of cell.now) netlist.now.gates }
{
    netlist.gates().iter().any(|gate| is_of(cell, gate))
}

/// Whether the gate has the name of the cell.
fn is_of(cell: &Cell, gate: &Gate) -> bool
    ensures { result ≡ structure.is_of cell.now (gate_seen gate.now) }
{
    match gate {
        Gate::Cell { name, .. } => cell.name.bytes() == name.bytes(),
        Gate::Sum(_) | Gate::Gc { .. } => false,
    }
}

/// Whether the cell has the name of the first inverter.
fn is_called_inverter(library: &PortedLibrary, cell: &Cell) -> bool
    ensures { result
        ≡ structure.has_name_of cell.now (structure.inverter_of (ported_cells library.now)) }
{
    match inverter_of(library) {
        Some(k) => cell.name.bytes() == library.library().cell(k).name.bytes(),
        None => false,
    }
}

/// Whether a pin of a gate's cell has a complemented literal.
fn is_complemented(netlist: &Netlist) -> bool
    ensures { result ≡ list_any structure.has_complemented netlist.now.gates }
{
    netlist.gates().iter().any(|gate| has_complemented(gate))
}

/// Whether a pin of the gate's cell has a complemented literal.
fn has_complemented(gate: &Gate) -> bool
    ensures { result ≡ structure.has_complemented (gate_seen gate.now) }
{
    match gate {
        Gate::Cell { literals, .. } => literals.iter().any(|literal| !literal.plain),
        Gate::Sum(_) | Gate::Gc { .. } => false,
    }
}

/// The text of the modules, and what holds of the library with its ports and of each netlist.
fn text_of(
    alloc: Global,
    library: &PortedLibrary,
    reset: &Option<Forcing>,
    netlist: &Netlist,
) -> Result<Text, NoMemory>
    ensures text { IfOk result (λ text. text ≡ structure_text library.now netlist.now reset.now) }
    ensures ported { OnOk result (IsPorted library.now) }
    ensures netlist { IsNetlist netlist.now }
{
    let signals = netlist.signals();
    let gates = netlist.gates();
    let mut text = Text::copy_of(alloc, b"")?;
    add_cells(alloc, &mut text, library, netlist)?;
    add_head(&mut text, netlist.model().bytes(), reset, signals)?;
    let forced = forced_by(reset);
    add_free_wires(alloc, &mut text, signals, forced)?;
    add_inverted_wires(alloc, &mut text, library, signals, gates)?;
    add_forced_lines(alloc, &mut text, netlist, reset)?;
    add_placements(alloc, &mut text, library, signals, forced, gates)?;
    text.add(b"endmodule\n")?;
    Ok(text)
}

/// Adds the modules of the cells that are used, in the order of the library. The library's cells
/// and ports tell what holds of them.
fn add_cells(
    alloc: Global,
    text: &mut Text,
    library: &PortedLibrary,
    netlist: &Netlist,
) -> Result<(), NoMemory>
    ensures modules { OnOk result (text.new ≡ text.old
        ++ flat_map (λ c. verilog_text (cell_netlist c)) (used_cells library.now netlist.now)) }
    ensures ported { IsPorted library.now }
{
    let mut all_ports = library.ports();
    for cell in library.library().cells() {
        let [ports, rest @ ..] = all_ports else {
            return Ok(());
        };
        all_ports = rest;
        if !is_used(library, netlist, cell) {
            continue;
        }
        add_cell(alloc, text, cell, ports)?;
    }
    Ok(())
}
