//! The gates of a graph in one style, one signal after another.

ghost use Rattle.std.specs.Prelude.{◌≡◌, IfOk, map};
ghost use Rattle.si_base.specs.Graph.{IsNonInput};
ghost use Rattle.si_checks.specs.Loops.Lent.{coded_of};
ghost use Rattle.si_netlist.specs.Loops.Parts.{gate_seen};
ghost use Rattle.si_circuit.specs.Covered.{HasPrimeGates};
ghost use Rattle.si_circuit.specs.Gates as chosen;
ghost use Rattle.si_circuit.specs.Spelled.{AreInserted, AreSpelled};

use crate::style::Style;
use si_base::ids::{NoMemory, Sig};
use si_base::text::Name;
use si_checks::distinct::Distinct;
use si_cover::cover::{SetReset, next_sum, set_reset};
use si_netlist::gate::{Gate, Insert};
use si_netlist::netlist::Netlist;
use std::alloc::Global;

/// The netlist of the chosen gates, with the signals and the start of the graph, and these
/// insertions. Its sums are prime and irredundant. It fails only where memory runs out.
pub fn netlist_with(
    alloc: Global,
    model: Name,
    graph: Distinct<'_>,
    inserts: Vec<Insert>,
    style: Style,
) -> Result<Netlist, NoMemory>
    requires spelled { AreSpelled model (coded_of graph).graph.signals }
    requires inserted { AreInserted inserts.items (coded_of graph).graph.signals }
    ensures chosen { let c = coded_of graph.entry in IfOk result
        (λ n. n ≡ chosen.netlist_of (chosen.gate_of style c) model inserts.items c) }
    ensures prime { IfOk result (HasPrimeGates (coded_of graph.entry)) }
{
    let gates = gates_of(alloc, graph, style)?;
    let coded = graph.proper().coded();
    let graph = coded.graph();
    let signals = graph.copied_signals(alloc)?;
    let start = coded.code(graph.start());
    Ok(Netlist::make(model, signals, start, inserts, gates))
}

/// A gate for each signal that the circuit drives, in signal order.
fn gates_of(alloc: Global, graph: Distinct<'_>, style: Style) -> Result<Vec<Gate>, NoMemory>
    ensures { let c = coded_of graph.entry in IfOk result (λ gates. map gate_seen gates.items
        ≡ chosen.gates_from (chosen.gate_of style c) 0 c.graph.signals) }
{
    let known = graph.proper().coded().graph();
    let mut gates = Vec::new(alloc);
    for i in 0..known.signals().len() {
        let z = Sig(i as u8);
        if !known.is_driven(z) {
            continue;
        }
        gates.push(gate_of(alloc, graph, style, z)?)?;
    }
    Ok(gates)
}

/// The gate of a signal.
fn gate_of(alloc: Global, graph: Distinct<'_>, style: Style, z: Sig) -> Result<Gate, NoMemory>
    requires { IsNonInput (coded_of graph).graph.signals z }
    ensures { IfOk result
        (λ gate. gate_seen gate ≡ chosen.gate_of style (coded_of graph.entry) z) }
{
    match style {
        Style::Complex => {
            let sum = next_sum(alloc, graph, z)?;
            Ok(Gate::Sum(sum))
        }
        Style::GeneralisedC => {
            let SetReset { set, reset } = set_reset(alloc, graph, z)?;
            Ok(Gate::Gc { set, reset })
        }
    }
}
