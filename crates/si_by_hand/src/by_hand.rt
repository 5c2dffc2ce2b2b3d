//! From the texts of a graph and of a gate to the text of the graph after the insertion of the
//! gate's signal.

ghost use Rattle.std.specs.Prelude.{ℕ, List, IfOk, IfErr, Ok};
ghost use Rattle.si_circuit.specs.Circuits.{AreStateNames};
ghost use Rattle.si_insert.specs.Accepted.{IsAccepted};
ghost use Rattle.si_insert.specs.Fresh.{IsTaken};
ghost use Rattle.si_insert.specs.Lineage.{AllGiven, Extends, given_history};
ghost use Rattle.si_readings.specs.Checks.{IsNamed};
ghost use Rattle.si_refusals.specs.Ending.{MayStop, ending_of};
ghost use Rattle.si_sg.specs.GivenGraph.{IsGivenBy, sg_now};
ghost use Rattle.si_by_hand.specs.ByHand as stage;
ghost use Rattle.si_by_hand.specs.ByHand.{step_of};
ghost use Rattle.si_by_hand.specs.Loops.NewNames.{IsNewName};
ghost use Rattle.si_by_hand.specs.Loops.Handed.{new_gate_now};

use crate::gate_text::NewGate;
use crate::partitions::accepted_for;
use crate::readings::{HandReadings, hand_readings};
use si_base::ids::NoMemory;
use si_base::names::Names;
use si_base::text::{Name, Text};
use si_checks::proper::Proper;
use si_insert::accept::Accepted;
use si_insert::lineage::Lineage;
use si_inserted::text::current_text;
use si_readings::checks::proper_of;
use si_refusals::refusals::Refusal;
use si_sg::read::Sg;
use std::alloc::Global;

/// The text of the graph that the one text spells, after the insertion of the signal whose gate
/// line is the other: by the least partition for which that gate is right. The signal becomes an
/// internal one. A refusal shows the names of the texts' files.
///
/// # Errors
///
/// `BadText` with the first fault of the texts in their order, else `Improper` with the first
/// breach, else `Rejected` exactly where there is no such partition, or it isn't accepted, with
/// the first reason. `NoMemory` only where memory runs out.
pub fn insert_by_hand<'w>(
    alloc: Global,
    graph_file: &'w str,
    graph: &[u8],
    gate_file: &'w str,
    gate: &[u8],
) -> Result<Text, Refusal<'w>>
    ensures ok { IfOk result (λ output. stage.by_hand graph_file.now graph.now
        gate_file.now gate.now (Ok output)) }
    ensures err { IfErr result (λ r. MayStop (stage.by_hand graph_file.now graph.now
        gate_file.now gate.now) (ending_of r)) }
{
    let readings = hand_readings(alloc, graph_file, graph, gate_file, gate)?;
    let HandReadings { given, made } = readings;
    text_by_hand(alloc, given, made)
}

/// The text of a graph that was read, after the insertion of the gate's signal.
fn text_by_hand(alloc: Global, given: Sg, made: NewGate) -> Result<Text, Refusal<'static>>
    requires given { (text : List ℕ) × IsGivenBy text (sg_now given) }
    requires named { IsNamed given.graph given.states }
    requires new { IsNewName given.graph.signals made.name }
    ensures ok { IfOk result
        (λ output. stage.text_by_hand (sg_now given) (new_gate_now made) (Ok output)) }
    ensures err { IfErr result
        (λ r. MayStop (stage.text_by_hand (sg_now given) (new_gate_now made)) (ending_of r)) }
{
    let Sg {
        model,
        graph,
        states,
    } = given;
    let proper = proper_of(alloc, graph, &states)?;
    text_with_gate(alloc, proper, &model, &states, made)
}

/// The text of the graph, whose states have these names, after the insertion of the gate's signal.
fn text_with_gate(
    alloc: Global,
    graph: Proper,
    model: &Name,
    states: &Names,
    made: NewGate,
) -> Result<Text, Refusal<'static>>
    requires given { AllGiven graph.graph.signals }
    requires names { AreStateNames graph.graph states.now }
    requires new { IsNewName graph.graph.signals made.name }
    ensures ok { IfOk result (λ output.
        stage.text_with_gate model.now states.now graph (new_gate_now made) (Ok output)) }
    ensures err { IfErr result (λ r.
        MayStop (stage.text_with_gate model.now states.now graph (new_gate_now made))
        (ending_of r)) }
{
    let accepted = accepted_for(alloc, &graph, states, &made)?;
    let lineage = lineage_with(alloc, graph, accepted, made.name)?;
    let output = current_text(alloc, &lineage, model, states)?;
    Ok(output)
}

/// The lineage of the graph with one insertion, by the partition and with that name of the new
/// signal. It fails only where memory runs out.
fn lineage_with(
    alloc: Global,
    graph: Proper,
    accepted: Accepted,
    name: Name,
) -> Result<Lineage, NoMemory>
    requires given { AllGiven graph.graph.signals }
    requires accepted { IsAccepted graph.graph accepted }
    requires new { ¬ IsTaken graph.graph.signals name }
    ensures { IfOk result (Extends (given_history graph) (step_of name accepted)) }
{
    let lineage = match Lineage::start(alloc, graph) {
        Ok(lineage) => lineage,
        Err((_graph, NoMemory)) => return Err(NoMemory),
    };
    match lineage.insert(alloc, accepted, name) {
        Ok(next) => Ok(next),
        Err((_lineage, _accepted, NoMemory)) => Err(NoMemory),
    }
}
