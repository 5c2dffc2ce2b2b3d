//! Handshakes, exercised: from their number to the sizes of their graph and of its circuit.

ghost use Rattle.std.specs.Prelude.{◌≡◌, ◌<◌, ◌≤◌, IfOk, IfErr, Ok};
ghost use Rattle.si_base.specs.Codes.{IsConnected};
ghost use Rattle.si_base.specs.Proper.{HasNoConflict, IsProper};
ghost use Rattle.si_circuit.specs.Circuits.{AreStateNames, circuit_of};
ghost use Rattle.si_circuit.specs.Spelled.{AreSpelled};
ghost use Rattle.si_circuit.specs.declared.style.Style.TheVariants.{Complex};
ghost use Rattle.si_handshakes.specs.Handshakes.{IsHandshakes, max_handshakes};
ghost use Rattle.si_insert.specs.Lineage.{AllGiven, given_history};
ghost use Rattle.si_refusals.specs.Ending.{MayStop, ending_of};
ghost use Rattle.si_readings.specs.Checks.{IsSound};
ghost use Rattle.si_exercise.specs.Exercise as stage;
ghost use Rattle.si_exercise.specs.Exercise.{IsExercise, exercise_text};

use crate::literals::literals_of;
use si_base::ids::NoMemory;
use si_base::names::Names;
use si_base::text::{Name, Text};
use si_checks::distinct::NotDistinct;
use si_checks::proper::{Improper, Proper};
use si_circuit::circuit::Circuit;
use si_graph::coded::{CodeFault, Coded};
use si_graph::graph::Graph;
use si_handshakes::handshakes::handshakes;
use si_insert::lineage::Lineage;
use si_insert::resolved::Resolved;
use si_netlist::netlist::Netlist;
use si_refusals::refusals::Refusal;
use si_reports::report::add_count;
use si_sg::read::Sg;
use std::alloc::Global;

/// The sizes of the graph of `n` independent handshakes, from 1 to 8, and of its netlist of complex
/// gates.
///
/// # Errors
///
/// `NoMemory` only where memory runs out: no check refuses the graph.
pub fn exercise(alloc: Global, n: u32) -> Result<Text, Refusal<'static>>
    requires some { 0 < n }
    requires few { n ≤ max_handshakes }
    ensures ok { IfOk result (λ output. stage.exercise n (Ok output)) }
    ensures err { IfErr result (λ r. MayStop (stage.exercise n) (ending_of r)) }
{
    match circuit_sizes(alloc, n) {
        Ok(text) => Ok(text),
        Err(_) => Err(Refusal::NoMemory),
    }
}

/// The sizes of the graph, and of its netlist of complex gates.
fn circuit_sizes(alloc: Global, n: u32) -> Result<Text, NoMemory>
    requires some { 0 < n }
    requires few { n ≤ max_handshakes }
    ensures { IfOk result (IsExercise n) }
{
    let Sg {
        model,
        graph,
        states,
    } = handshakes(alloc, n)?;
    sizes_of_handshakes(alloc, n, graph, &model, &states)
}

/// The sizes of this graph of so many handshakes, and of its netlist of complex gates.
fn sizes_of_handshakes(
    alloc: Global,
    n: u32,
    graph: Graph,
    model: &Name,
    states: &Names,
) -> Result<Text, NoMemory>
    requires few { n ≤ max_handshakes }
    requires connected { IsConnected graph }
    requires handshakes { IsHandshakes n
        (record { model = model.now; graph = graph; states = states.now }) }
    ensures { IfOk result (IsExercise n) }
{
    let state_count = graph.states();
    let arc_count = graph.edges();
    let proper = proper_graph(alloc, graph)?;
    let circuit = circuit_as_given(alloc, proper, model, states)?;
    sizes(alloc, n, state_count, arc_count, circuit.netlist())
}

/// The circuit of complex gates for a graph without conflicts, with nothing inserted.
fn circuit_as_given(
    alloc: Global,
    graph: Proper,
    model: &Name,
    states: &Names,
) -> Result<Circuit, NoMemory>
    requires given { AllGiven graph.graph.signals }
    requires free { HasNoConflict graph }
    requires spelled { AreSpelled model.now graph.graph.signals }
    requires states { AreStateNames graph.graph states.now }
    ensures { IfOk result (λ circuit. circuit.netlist
        ≡ circuit_of Complex model.now states.now (given_history graph)) }
{
    let resolved = resolved_as_given(alloc, graph)?;
    match Circuit::of_sums(alloc, resolved, model, states) {
        Ok(circuit) => Ok(circuit),
        Err(_) => Err(NoMemory),
    }
}

/// The graph with its codes, where no check refuses it.
fn proper_graph(alloc: Global, graph: Graph) -> Result<Proper, NoMemory>
    requires connected { IsConnected graph }
    requires proper { IsProper graph }
    ensures { IfOk result (IsSound graph) }
{
    let coded = match Coded::make(alloc, graph) {
        Ok(coded) => coded,
        Err((_, CodeFault::NoMemory)) => return Err(NoMemory),
        Err((_, CodeFault::Nondeterministic { .. })) => unreachable!(),
        Err((_, CodeFault::Inconsistent { .. })) => unreachable!(),
    };
    match Proper::make(alloc, coded) {
        Ok(proper) => Ok(proper),
        Err((_, Improper::NoMemory)) => Err(NoMemory),
        Err((_, Improper::Noncommutative { .. })) => unreachable!(),
        Err((_, Improper::Nonpersistent { .. })) => unreachable!(),
    }
}

/// The lineage of the graph, of which no states are in conflict, with nothing inserted.
fn resolved_as_given(alloc: Global, graph: Proper) -> Result<Resolved, NoMemory>
    requires given { AllGiven graph.graph.signals }
    requires free { HasNoConflict graph }
    ensures { IfOk result (λ l. l ≡ given_history graph) }
{
    let Ok(lineage) = Lineage::start(alloc, graph) else {
        return Err(NoMemory);
    };
    match Resolved::make(alloc, lineage) {
        Ok(resolved) => Ok(resolved),
        Err((_, NotDistinct::NoMemory)) => Err(NoMemory),
        Err((_, NotDistinct::Conflict { .. })) => unreachable!(),
    }
}

/// The lines of the sizes.
fn sizes(alloc: Global, n: u32, states: u32, arcs: u32, netlist: &Netlist) -> Result<Text, NoMemory>
    ensures { IfOk result (λ text. text ≡ exercise_text n states arcs netlist.now) }
{
    let gates = netlist.gates().len() as u64;
    let literals = literals_of(netlist)?;
    let mut text = Text::copy_of(alloc, b"")?;
    add_count(alloc, &mut text, b"exercise", u64::from(n))?;
    add_count(alloc, &mut text, b"states", u64::from(states))?;
    add_count(alloc, &mut text, b"arcs", u64::from(arcs))?;
    add_count(alloc, &mut text, b"gates", gates)?;
    add_count(alloc, &mut text, b"literals", literals)?;
    Ok(text)
}
