//! Writes which arcs a timing tool leaves out, so that it meets no loop.

ghost use Rattle.std.specs.Prelude.{◌≡◌, ◌++◌, All, IfErr, IfOk, OnOk, flat_map};
ghost use Rattle.si_base.specs.Graph.{IsNonInput};
ghost use Rattle.si_loops.specs.Arcs.{gated};
ghost use Rattle.si_timing.specs.Loops.Writing.{lines};
ghost use Rattle.si_timing.specs.Meaning.{IsOver, LeavesNoLoop};
ghost use Rattle.si_timing.specs.Refusals.{IsOfCells, Shows};
ghost use Rattle.si_timing.specs.TimingText.{IsTimingText, cut_arcs, feedback_arcs};

use crate::decide::is_cell_gate;
use crate::lines::{add_cut, add_feedback};
use crate::refusal::Untimed;
use si_base::ids::{NoMemory, Sig};
use si_base::text::Text;
use si_cell::library::Library;
use si_genlib::ports::PortedLibrary;
use si_loops::arcs::{Arc, arcs, driven};
use si_loops::cut::cut_loops;
use si_netlist::netlist::Netlist;
use std::alloc::Global;

/// The lines of a timing script that disable arcs inside the instances of the netlist's gates, so
/// that no loop of arcs is left: those for the arcs between gates that are cut, and behind them
/// those of cells that read their own output. The instances and their ports have the names that
/// they have in structural Verilog.
///
/// # Errors
///
/// `NoInstance` for the first gate, in signal order, that isn't an instance of a cell of the
/// library. `NoMemory` where memory runs out.
pub fn write_timing(
    alloc: Global,
    library: &PortedLibrary,
    netlist: &Netlist,
) -> Result<Text, Untimed>
    ensures cells { IfOk result (λ _. IsOfCells library.now.library netlist.now) }
    ensures text { IfOk result (IsTimingText library.now netlist.now) }
    ensures means { IfOk result (LeavesNoLoop library.now netlist.now) }
    ensures err { IfErr result (Shows library.now.library netlist.now) }
{
    check_gates(alloc, library.library(), netlist)?;
    assure(library, netlist);
    let text = text_of(alloc, library, netlist)?;
    Ok(text)
}

/// What holds of a netlist of cells: its library and it are well formed, as each is.
fn assure(library: &PortedLibrary, netlist: &Netlist)
    requires { IsOfCells library.now.library netlist.now }
    ensures { IsOver library.now netlist.now }
{
    let _cells = library.library().cells();
    let _ports = library.ports();
    let _signals = netlist.signals();
}

/// Whether each gate is an instance of a cell. Fails with the first that isn't, and where memory
/// runs out.
fn check_gates(alloc: Global, library: &Library, netlist: &Netlist) -> Result<(), Untimed>
    ensures ok { OnOk result (IsOfCells library.now netlist.now) }
    ensures err { IfErr result (Shows library.now netlist.now) }
{
    for (z, signal) in netlist.signals().iter().enumerate() {
        if !signal.kind.is_driven() {
            continue;
        }
        let sig = Sig(z as u8);
        if !is_cell_gate(alloc, library, sig, netlist.gate_of(sig))? {
            return Err(Untimed::NoInstance { sig });
        }
    }
    Ok(())
}

/// The text of the arcs that are disabled. It fails only where memory runs out.
fn text_of(alloc: Global, library: &PortedLibrary, netlist: &Netlist) -> Result<Text, NoMemory>
    ensures { IfOk result (IsTimingText library.now netlist.now) }
{
    let arcs = arcs(alloc, netlist)?;
    let split = cut_loops(alloc, arcs.as_slice())?;
    let mut text = Text::copy_of(alloc, b"")?;
    add_cuts(&mut text, library, netlist, split.cut.as_slice())?;
    add_feedbacks(alloc, &mut text, library, netlist)?;
    Ok(text)
}

/// Adds the lines for the arcs between gates that are cut.
fn add_cuts(
    text: &mut Text,
    library: &PortedLibrary,
    netlist: &Netlist,
    cut: &[Arc],
) -> Result<(), NoMemory>
    requires { All (λ a. IsNonInput netlist.now.signals a.to) cut.now }
    ensures { OnOk result (text.new ≡ text.old
        ++ lines (flat_map (cut_arcs library.now netlist.now) cut.now)) }
{
    for arc in cut {
        let gate = netlist.gate_of(arc.to);
        add_cut(text, library, netlist.signals(), arc, gate)?;
    }
    Ok(())
}

/// Adds the lines of cells that read their own output.
fn add_feedbacks(
    alloc: Global,
    text: &mut Text,
    library: &PortedLibrary,
    netlist: &Netlist,
) -> Result<(), NoMemory>
    ensures { OnOk result (text.new ≡ text.old
        ++ lines (flat_map (feedback_arcs library.now netlist.now) (gated netlist.now.signals))) }
{
    let driven = driven(alloc, netlist)?;
    for z in driven.as_slice() {
        let gate = netlist.gate_of(*z);
        add_feedback(alloc, text, library, netlist.signals(), *z, gate)?;
    }
    Ok(())
}
