//! Circuits: a lineage without conflicts, with a netlist that implements its given graph.

ghost use Rattle.std.specs.Prelude.{◌≡◌, IfOk, IfErr, map};
ghost use Rattle.si_base.specs.Behaviour.{Implements};
ghost use Rattle.si_base.specs.WellFormed.{IsNetlist};
ghost use Rattle.si_insert.specs.Built.{IsBuilt};
ghost use Rattle.si_circuit.specs.Cells.{AllFit, ShowsUnfit, mapped_netlist};
ghost use Rattle.si_circuit.specs.Circuits.{AreStateNames, IsCircuit, circuit_of};
ghost use Rattle.si_circuit.specs.Spelled.{AreSpelled};
ghost use Rattle.si_circuit.specs.declared.style.Style.TheVariants.{Complex, GeneralisedC};

use crate::cells::{CellsFault, netlist_of_cells};
use crate::gates::netlist_with;
use crate::spelling::insertions;
use crate::style::Style;
use si_base::ids::NoMemory;
use si_base::names::Names;
use si_base::text::Name;
use si_cell::library::Library;
use si_insert::resolved::Resolved;
use si_netlist::netlist::Netlist;
use std::alloc::Global;
use std::marker::Model;

/// A lineage whose current graph has no conflict, with a netlist whose gates give that graph's next
/// values, and so implement the lineage's given graph.
#[derive(Drop)]
pub struct Circuit {
    resolved: Resolved,
    netlist: Netlist,
}

impl Model for Circuit {
    ghost use Rattle.si_circuit.specs.Circuits.{IsCircuit, LineageNetlist};

    ghost Value = { LineageNetlist };

    ghost view = { λ c. record { lineage = c.resolved; netlist = c.netlist } };

    ghost invariant = { λ c. IsCircuit c.resolved c.netlist };
}

impl Circuit {
    /// The circuit of complex gates: each is the sum of its signal's next value. The netlist has
    /// that model name, and its insertions are spelled by these names of the given states. After
    /// want of memory the lineage comes back.
    pub fn of_sums(
        alloc: Global,
        resolved: Resolved,
        model: &Name,
        states: &Names,
    ) -> Result<Circuit, (Resolved, NoMemory)>
        requires spelled { AreSpelled model.now resolved.current.coded.graph.signals }
        requires states { AreStateNames resolved.given.graph states.now }
        ensures same { IfOk result (λ c. c.lineage ≡ resolved) }
        ensures netlist { IfOk result
            (λ c. c.netlist ≡ circuit_of Complex model.now states.now resolved) }
        ensures implements { IfOk result (λ c. Implements c.netlist resolved.given.graph) }
        ensures written { IfOk result (λ c. IsNetlist c.netlist) }
        ensures back { IfErr result (λ e. e.0 ≡ resolved) }
    {
        Circuit::of_style(alloc, resolved, model, states, Style::Complex)
    }

    /// The circuit of generalised C-elements: each has the sum that sets its signal and the one
    /// that resets it. Otherwise as `of_sums`.
    pub fn of_gc(
        alloc: Global,
        resolved: Resolved,
        model: &Name,
        states: &Names,
    ) -> Result<Circuit, (Resolved, NoMemory)>
        requires spelled { AreSpelled model.now resolved.current.coded.graph.signals }
        requires states { AreStateNames resolved.given.graph states.now }
        ensures same { IfOk result (λ c. c.lineage ≡ resolved) }
        ensures netlist { IfOk result
            (λ c. c.netlist ≡ circuit_of GeneralisedC model.now states.now resolved) }
        ensures implements { IfOk result (λ c. Implements c.netlist resolved.given.graph) }
        ensures written { IfOk result (λ c. IsNetlist c.netlist) }
        ensures back { IfErr result (λ e. e.0 ≡ resolved) }
    {
        Circuit::of_style(alloc, resolved, model, states, Style::GeneralisedC)
    }

    /// The circuit of cells of the library: the gate of each signal is the first instance that fits
    /// it, with the sum that this computes. Otherwise as `of_sums`.
    ///
    /// # Errors
    ///
    /// `Unfit` exactly where some signal that the circuit drives fits no cell, with the first.
    /// `NoMemory` only where memory runs out. The lineage comes back.
    pub fn of_cells(
        alloc: Global,
        resolved: Resolved,
        library: &Library,
        model: &Name,
        states: &Names,
    ) -> Result<Circuit, (Resolved, CellsFault)>
        requires spelled { AreSpelled model.now resolved.current.coded.graph.signals }
        requires states { AreStateNames resolved.given.graph states.now }
        ensures same { IfOk result (λ c. c.lineage ≡ resolved) }
        ensures netlist { IfOk result
            (λ c. c.netlist ≡ mapped_netlist library.now model.now states.now resolved) }
        ensures implements { IfOk result (λ c. Implements c.netlist resolved.given.graph) }
        ensures written { IfOk result (λ c. IsNetlist c.netlist) }
        ensures fit { IfOk result (λ c. AllFit resolved.current.coded library.now) }
        ensures back { IfErr result (λ e. e.0 ≡ resolved) }
        ensures unfit { IfErr result (λ e. ShowsUnfit resolved.current.coded library.now e.1) }
    {
        match cell_netlist_for(alloc, &resolved, library, model, states) {
            Ok(netlist) => Ok(Circuit { resolved, netlist }),
            Err(fault) => Err((resolved, fault)),
        }
    }

    /// The circuit of gates of a style.
    pub fn of_style(
        alloc: Global,
        resolved: Resolved,
        model: &Name,
        states: &Names,
        style: Style,
    ) -> Result<Circuit, (Resolved, NoMemory)>
        requires spelled { AreSpelled model.now resolved.current.coded.graph.signals }
        requires states { AreStateNames resolved.given.graph states.now }
        ensures same { IfOk result (λ c. c.lineage ≡ resolved) }
        ensures netlist { IfOk result
            (λ c. c.netlist ≡ circuit_of style model.now states.now resolved) }
        ensures implements { IfOk result (λ c. Implements c.netlist resolved.given.graph) }
        ensures written { IfOk result (λ c. IsNetlist c.netlist) }
        ensures back { IfErr result (λ e. e.0 ≡ resolved) }
    {
        match netlist_for(alloc, &resolved, model, states, style) {
            Ok(netlist) => Ok(Circuit { resolved, netlist }),
            Err(no_memory) => Err((resolved, no_memory)),
        }
    }

    /// The circuit of a netlist that stands already: it has the signals and the start of the
    /// lineage's current graph, its gates give that graph's next values, and its insertions have
    /// the names of the trace, in order. So it implements the lineage's given graph, whoever wrote
    /// it.
    pub fn of_netlist(resolved: Resolved, netlist: Netlist) -> Circuit
        requires built { IsBuilt resolved.current netlist }
        requires inserted { map (λ i. i.name) netlist.inserts ≡ map (λ p. p.name) resolved.trace }
        ensures same { result.lineage ≡ resolved }
        ensures netlist { result.netlist ≡ netlist }
        ensures implements { Implements netlist resolved.given.graph }
    {
        // What holds of each lineage comes with its trace.
        let _trace = resolved.lineage().trace();
        Circuit { resolved, netlist }
    }

    /// The netlist, and that it implements the lineage's given graph.
    pub fn netlist(&self) -> &Netlist
        ensures same { result.now ≡ self.now.netlist }
        ensures circuit { IsCircuit self.now.lineage self.now.netlist }
        ensures implements { Implements self.now.netlist self.now.lineage.given.graph }
    {
        &self.netlist
    }

    /// The lineage, whose current graph has no conflict.
    pub fn resolved(&self) -> &Resolved
        ensures { result.now ≡ self.now.lineage }
    {
        &self.resolved
    }
}

/// The netlist of the chosen gates for the current graph, with the insertions.
fn netlist_for(
    alloc: Global,
    resolved: &Resolved,
    model: &Name,
    states: &Names,
    style: Style,
) -> Result<Netlist, NoMemory>
    requires spelled { AreSpelled model.now resolved.now.current.coded.graph.signals }
    requires states { AreStateNames resolved.now.given.graph states.now }
    ensures netlist { IfOk result
        (λ n. n ≡ circuit_of style model.now states.now resolved.now) }
    ensures circuit { IfOk result (IsCircuit resolved.now) }
    ensures implements { IfOk result (λ n. Implements n resolved.now.given.graph) }
    ensures written { IfOk result IsNetlist }
{
    let lineage = resolved.lineage();
    // What holds of each lineage comes with its trace.
    let _trace = lineage.trace();
    let inserts = insertions(alloc, lineage, states)?;
    let model = Name::copy_of(alloc, model.bytes())?;
    netlist_with(alloc, model, resolved.distinct(), inserts, style)
}

/// The netlist of the first fitting instances for the current graph, with the insertions.
fn cell_netlist_for(
    alloc: Global,
    resolved: &Resolved,
    library: &Library,
    model: &Name,
    states: &Names,
) -> Result<Netlist, CellsFault>
    requires spelled { AreSpelled model.now resolved.now.current.coded.graph.signals }
    requires states { AreStateNames resolved.now.given.graph states.now }
    ensures netlist { IfOk result
        (λ n. n ≡ mapped_netlist library.now model.now states.now resolved.now) }
    ensures circuit { IfOk result (IsCircuit resolved.now) }
    ensures implements { IfOk result (λ n. Implements n resolved.now.given.graph) }
    ensures written { IfOk result IsNetlist }
    ensures fit { IfOk result (λ n. AllFit resolved.now.current.coded library.now) }
    ensures unfit { IfErr result (ShowsUnfit resolved.now.current.coded library.now) }
{
    let lineage = resolved.lineage();
    // What holds of each lineage comes with its trace.
    let _trace = lineage.trace();
    let inserts = insertions(alloc, lineage, states)?;
    let model = Name::copy_of(alloc, model.bytes())?;
    netlist_of_cells(alloc, model, resolved.distinct(), library, inserts)
}
