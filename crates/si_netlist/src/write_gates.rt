//! Writes the lines of gates.

ghost use Rattle.std.specs.Prelude.{◌≡◌, ◌∷◌, ◌++◌, OnOk, map};
ghost use Rattle.si_base.specs.Words.{line, text_of};
ghost use Rattle.si_base.specs.NetlistText.{gate_words};
ghost use Rattle.si_netlist.specs.Loops.Parts.{gate_seen};
ghost use Rattle.si_netlist.specs.Loops.Writing.{gate_lines};
ghost use Rattle.si_words.specs.Loops.Writing.{spaced};

use crate::gate::Gate;
use si_base::graph::Signal;
use si_base::ids::NoMemory;
use si_base::text::Text;
use si_cube::write_sums::{add_literals, add_sum};
use si_words::writing::add_word;

/// Adds a line for each gate and the signal that it drives.
pub fn add_gate_lines(text: &mut Text, signals: &[Signal], gates: &[Gate]) -> Result<(), NoMemory>
    ensures { OnOk result (text.new
        ≡ text.old ++ text_of (gate_lines signals.now signals.now (map gate_seen gates.now))) }
{
    let mut gates = gates;
    for signal in signals {
        if !signal.kind.is_driven() {
            continue;
        }
        let [gate, rest @ ..] = gates else {
            return Ok(());
        };
        add_gate_line(text, signals, signal, gate)?;
        gates = rest;
    }
    Ok(())
}

/// Adds the line of a signal's gate.
fn add_gate_line(
    text: &mut Text,
    signals: &[Signal],
    signal: &Signal,
    gate: &Gate,
) -> Result<(), NoMemory>
    ensures { OnOk result (text.new
        ≡ text.old ++ line (signal.now.name ∷ gate_words signals.now (gate_seen gate.now))) }
{
    text.add(signal.name.bytes())?;
    add_gate(text, signals, gate)?;
    text.add(b"\n")
}

/// Adds the words of the gate.
fn add_gate(text: &mut Text, signals: &[Signal], gate: &Gate) -> Result<(), NoMemory>
    ensures { OnOk result
        (text.new ≡ text.old ++ spaced (gate_words signals.now (gate_seen gate.now))) }
{
    match gate {
        Gate::Sum(sum) => {
            add_word(text, b"sum")?;
            add_sum(text, signals, sum)
        }
        Gate::Gc { set, reset } => {
            add_word(text, b"gc")?;
            add_sum(text, signals, set)?;
            add_word(text, b"|")?;
            add_sum(text, signals, reset)
        }
        Gate::Cell {
            name,
            literals,
            sum,
        } => {
            add_word(text, b"cell")?;
            add_word(text, name.bytes())?;
            add_literals(text, signals, literals.as_slice())?;
            add_word(text, b":")?;
            add_sum(text, signals, sum)
        }
    }
}
