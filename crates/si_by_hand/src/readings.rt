//! Reading a graph, and the gate of a new signal. A refusal shows the name of the text's file.

ghost use Rattle.std.specs.Prelude.{◌≢◌, ◌≤◌, length, AllPairs, IfOk, IfErr, Ok};
ghost use Rattle.si_base.specs.Limits.{max_signals};
ghost use Rattle.si_readings.specs.Checks.{IsNamed};
ghost use Rattle.si_refusals.specs.Ending.{MayStop, ending_of};
ghost use Rattle.si_by_hand.specs.HandReadings as stage;
ghost use Rattle.si_by_hand.specs.Loops.NewNames.{IsNewName};
ghost use Rattle.si_by_hand.specs.Loops.Handed.{hand_readings_now, new_gate_now};

use crate::gate_text::{NewGate, read_gate_text};
use si_base::fault::TextFault;
use si_base::graph::Signal;
use si_readings::readings::graph_in;
use si_refusals::refusals::Refusal;
use si_sg::read::Sg;
use std::alloc::Global;

/// What the texts of an insertion by a gate spell.
#[derive(Drop)]
pub struct HandReadings {
    pub given: Sg,
    pub made: NewGate,
}

/// The graph and the new signal that the texts spell, each file with its text.
///
/// # Errors
///
/// `BadText` with the first fault of the texts in their order. `NoMemory` only where memory runs
/// out.
pub fn hand_readings<'w>(
    alloc: Global,
    graph_file: &'w str,
    graph: &[u8],
    gate_file: &'w str,
    gate: &[u8],
) -> Result<HandReadings, Refusal<'w>>
    ensures ok { IfOk result (λ r. stage.hand_readings graph_file.now graph.now
        gate_file.now gate.now (Ok (hand_readings_now r))) }
    ensures err { IfErr result (λ r. MayStop (stage.hand_readings graph_file.now graph.now
        gate_file.now gate.now) (ending_of r)) }
    ensures named { IfOk result (λ r. IsNamed r.given.graph r.given.states) }
    ensures new { IfOk result (λ r. IsNewName r.given.graph.signals r.made.name) }
{
    let given = graph_in(alloc, graph_file, graph)?;
    let made = gate_in(alloc, gate_file, given.graph.signals(), gate)?;
    Ok(HandReadings { given, made })
}

/// The new signal that the text spells beside these signals.
fn gate_in<'w>(
    alloc: Global,
    file: &'w str,
    signals: &[Signal],
    text: &[u8],
) -> Result<NewGate, Refusal<'w>>
    requires distinct { AllPairs (λ x y. x.name ≢ y.name) signals.now }
    requires few { length signals.now ≤ max_signals }
    ensures ok { IfOk result
        (λ made. stage.gate_in file.now signals.now text.now (Ok (new_gate_now made))) }
    ensures err { IfErr result
        (λ r. MayStop (stage.gate_in file.now signals.now text.now) (ending_of r)) }
    ensures new { IfOk result (λ made. IsNewName signals.now made.name) }
{
    match read_gate_text(alloc, signals, text) {
        Ok(made) => Ok(made),
        Err(TextFault::NoMemory) => Err(Refusal::NoMemory),
        Err(TextFault::At { line, kind }) => Err(Refusal::BadText { file, line, kind }),
    }
}
