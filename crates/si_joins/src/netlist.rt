//! The netlist of all gates of all parts.

ghost use Rattle.std.specs.Prelude.{◌≡◌, ◌≤◌, IfOk, length, map, vec_items};
ghost use Rattle.si_base.specs.Limits.{max_signals};
ghost use Rattle.si_circuit.specs.Circuits.{AreStateNames};
ghost use Rattle.si_circuit.specs.Gates.{gates_from};
ghost use Rattle.si_circuit.specs.Spelled.{AreSpelled};
ghost use Rattle.si_composing.specs.JoinedSignals.{max_parts};
ghost use Rattle.si_joins.specs.Gates as joined;
ghost use Rattle.si_joins.specs.Loops.Parts.{AreNetlists, ArePlaced};
ghost use Rattle.si_netlist.specs.Loops.Parts.{gate_seen};

use crate::gates::joined_gate;
use crate::places::all_places;
use si_base::ids::{NoMemory, Sig};
use si_base::names::Names;
use si_base::text::Name;
use si_circuit::spelling::insertions;
use si_graph::graph::Graph;
use si_insert::lineage::Lineage;
use si_netlist::gate::Gate;
use si_netlist::netlist::Netlist;
use std::alloc::Global;

/// The netlist of all gates of the parts, for the last graph of the lineage.
pub(crate) fn joined_netlist(
    alloc: Global,
    model: &Name,
    states: &Names,
    parts: &[Netlist],
    lineage: &Lineage,
) -> Result<Netlist, NoMemory>
    requires spelled { AreSpelled model.now lineage.now.current.coded.graph.signals }
    requires states { AreStateNames lineage.now.given.graph states.now }
    requires few { length parts.now ≤ max_parts }
    requires netlists { AreNetlists parts.now }
    ensures { IfOk result
        (λ n. n ≡ joined.joined_netlist model.now states.now parts.now lineage.now) }
{
    // What holds of each lineage comes with its trace.
    let _trace = lineage.trace();
    let given = lineage.given().coded().graph().signals().len();
    let coded = lineage.current().coded();
    let graph = coded.graph();
    let tos = all_places(alloc, graph.signals(), given, parts)?;
    let gates = joined_gates(alloc, graph, parts, &tos)?;
    let inserts = insertions(alloc, lineage, states)?;
    let model = Name::copy_of(alloc, model.bytes())?;
    let signals = graph.copied_signals(alloc)?;
    let start = coded.code(graph.start());
    Ok(Netlist::make(model, signals, start, inserts, gates))
}

/// A gate for each signal of the graph that isn't an input, in signal order.
fn joined_gates(
    alloc: Global,
    graph: &Graph,
    parts: &[Netlist],
    tos: &[Vec<usize>],
) -> Result<Vec<Gate>, NoMemory>
    requires few { length graph.now.signals ≤ max_signals }
    requires placed { ArePlaced parts.now (map vec_items tos.now) }
    ensures { let signals = graph.now.signals in
        IfOk result (λ gates. map gate_seen gates.items ≡ gates_from
        (joined.joined_gate (length signals) parts.now (map vec_items tos.now)) 0 signals) }
{
    let count = graph.signals().len();
    let mut gates = Vec::new(alloc);
    for z in 0..count {
        if !graph.is_driven(Sig(z as u8)) {
            continue;
        }
        gates.push(joined_gate(alloc, count, parts, tos, z)?)?;
    }
    Ok(gates)
}
