//! Gates that are cells of a library, one signal after another.

ghost use Rattle.std.specs.Prelude.{◌≡◌, ◌<◌, IfOk, IfErr, map};
ghost use Rattle.std.specs.Option.{IsSome};
ghost use Rattle.si_base.specs.Codes.{IsCoded};
ghost use Rattle.si_base.specs.Graph.{IsNonInput};
ghost use Rattle.si_base.specs.Limits.{code_width};
ghost use Rattle.si_base.specs.RightGates.{GivesNextValues};
ghost use Rattle.si_cell.specs.Library.{IsLibrary, IsInstance};
ghost use Rattle.si_checks.specs.Loops.Lent.{coded_of};
ghost use Rattle.si_match.specs.Fit.{first_fit};
ghost use Rattle.si_netlist.specs.Loops.Parts.{gate_seen};
ghost use Rattle.si_circuit.specs.Cells.{AllFit, ShowsUnfit, ShowsUnfitAt};
ghost use Rattle.si_circuit.specs.Cells as chosen;
ghost use Rattle.si_circuit.specs.Gates.{gates_from, netlist_of};
ghost use Rattle.si_circuit.specs.Spelled.{AreInserted, AreSpelled};

use si_base::ids::{Literal, NoMemory, Sig};
use si_base::text::Name;
use si_cell::cell::{Instance, PinLiteral};
use si_cell::expand::expand;
use si_cell::library::Library;
use si_checks::distinct::Distinct;
use si_match::fit::fit;
use si_netlist::gate::{Gate, Insert};
use si_netlist::netlist::Netlist;
use std::alloc::{AllocFailed, Global};

/// Why there is no circuit of cells.
#[derive(Clone, Copy, PartialEq, Eq, Debug)]
pub enum CellsFault {
    /// Out of memory.
    NoMemory,
    /// The first signal that the circuit drives and that no cell of the library fits.
    Unfit { sig: Sig },
}

impl From<NoMemory> for CellsFault {
    ghost use Rattle.std.specs.Prelude.{◌≡◌};
    ghost use Rattle.si_circuit.specs.declared.cells.CellsFault.TheVariants as faults;

    ghost from_gives = { λ _ e. e ≡ faults.NoMemory };

    fn from(_e: NoMemory) -> CellsFault {
        CellsFault::NoMemory
    }
}

impl<T: Drop> From<AllocFailed<T>> for CellsFault {
    ghost use Rattle.std.specs.Prelude.{◌≡◌};
    ghost use Rattle.si_circuit.specs.declared.cells.CellsFault.TheVariants as faults;

    ghost from_gives = { λ _ e. e ≡ faults.NoMemory };

    fn from(_e: AllocFailed<T>) -> CellsFault {
        CellsFault::NoMemory
    }
}

/// The netlist of the first fitting instances, with the signals and the start of the graph, and
/// these insertions. `Unfit` comes exactly where some signal that the circuit drives fits no cell,
/// with the first.
pub fn netlist_of_cells(
    alloc: Global,
    model: Name,
    graph: Distinct<'_>,
    library: &Library,
    inserts: Vec<Insert>,
) -> Result<Netlist, CellsFault>
    requires spelled { AreSpelled model (coded_of graph).graph.signals }
    requires inserted { AreInserted inserts.items (coded_of graph).graph.signals }
    ensures chosen { let c = coded_of graph.entry in IfOk result
        (λ n. n ≡ netlist_of (chosen.cell_gate c library.now) model inserts.items c) }
    ensures gives { IfOk result (GivesNextValues (coded_of graph.entry)) }
    ensures fit { IfOk result (λ n. AllFit (coded_of graph.entry) library.now) }
    ensures fault { IfErr result (ShowsUnfit (coded_of graph.entry) library.now) }
{
    let gates = cell_gates(alloc, graph, library)?;
    let coded = graph.proper().coded();
    let graph = coded.graph();
    let signals = graph.copied_signals(alloc)?;
    let start = coded.code(graph.start());
    Ok(Netlist::make(model, signals, start, inserts, gates))
}

/// A gate for each signal that the circuit drives, in signal order.
fn cell_gates(
    alloc: Global,
    graph: Distinct<'_>,
    library: &Library,
) -> Result<Vec<Gate>, CellsFault>
    ensures gates { let c = coded_of graph.entry in IfOk result
        (λ gates. map gate_seen gates.items
        ≡ gates_from (chosen.cell_gate c library.now) 0 c.graph.signals) }
    ensures library { IfOk result (λ gates. IsLibrary library.now) }
    ensures fit { IfOk result (λ gates. AllFit (coded_of graph.entry) library.now) }
    ensures fault { IfErr result (ShowsUnfit (coded_of graph.entry) library.now) }
{
    // What holds of each library comes with its cells.
    let _cells = library.cells();
    let known = graph.proper().coded().graph();
    let mut gates = Vec::new(alloc);
    for i in 0..known.signals().len() {
        let z = Sig(i as u8);
        if !known.is_driven(z) {
            continue;
        }
        let gate = cell_gate(alloc, graph, library, z)?;
        gates.push(gate)?;
    }
    Ok(gates)
}

/// The first fitting instance as the gate of a signal.
fn cell_gate(
    alloc: Global,
    graph: Distinct<'_>,
    library: &Library,
    z: Sig,
) -> Result<Gate, CellsFault>
    requires driven { IsNonInput (coded_of graph).graph.signals z }
    requires coded { IsCoded (coded_of graph) }
    ensures gate { IfOk result
        (λ gate. gate_seen gate ≡ chosen.cell_gate (coded_of graph.entry) library.now z) }
    ensures fit { IfOk result (λ gate. IsSome (first_fit (coded_of graph.entry) library.now z)) }
    ensures fault { IfErr result (ShowsUnfitAt (coded_of graph.entry) library.now z) }
{
    // What holds of each library comes with its cells.
    let _cells = library.cells();
    match fit(graph, library, z) {
        Some(instance) => Ok(gate_of_instance(alloc, library, &instance, z)?),
        None => Err(CellsFault::Unfit { sig: z }),
    }
}

/// An instance as the gate of a signal.
fn gate_of_instance(
    alloc: Global,
    library: &Library,
    instance: &Instance,
    z: Sig,
) -> Result<Gate, NoMemory>
    requires instance { IsInstance library.now instance.now }
    requires signal { z < code_width }
    ensures { IfOk result
        (λ gate. gate_seen gate ≡ chosen.instance_gate library.now z instance.now) }
{
    let name = Name::copy_of(alloc, library.cell(instance.cell).name.bytes())?;
    let literals = literal_list(alloc, instance.literals.as_slice())?;
    let sum = expand(alloc, library, instance, z)?;
    Ok(Gate::Cell {
        name,
        literals,
        sum,
    })
}

/// The literals in a vector.
fn literal_list(alloc: Global, literals: &[PinLiteral]) -> Result<Vec<Literal>, NoMemory>
    ensures { IfOk result (λ v. v.items ≡ literals.now) }
{
    let mut copies = Vec::new(alloc);
    for literal in literals {
        copies.push(literal.0)?;
    }
    Ok(copies)
}
