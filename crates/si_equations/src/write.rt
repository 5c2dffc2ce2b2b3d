//! Writes a netlist as equations.

ghost use Rattle.std.specs.Prelude.{◌≡◌, ◌∷◌, [], ◌++◌, IfOk, OnOk, flat_map, map};
ghost use Rattle.si_base.specs.Bytes.{line_feed, space};
ghost use Rattle.si_base.specs.Netlist.{Gc};
ghost use Rattle.si_base.specs.NetlistText.{names_of, same_kind};
ghost use Rattle.si_base.specs.WellFormed.{IsNetlist};
ghost use Rattle.si_equations.specs.Meaning.{MeansNetlist};
ghost use Rattle.si_equations.specs.Written.{equation_line, equation_lines, equations_text};
ghost use Rattle.si_equations.specs.Written.{gate_text, list_line};
ghost use Rattle.si_netlist.specs.Loops.Parts.{gate_seen};

use crate::names::{add_in_brackets, add_name};
use crate::write_sums::add_sum;
use si_base::graph::{SigKind, Signal};
use si_base::ids::NoMemory;
use si_base::text::Text;
use si_cube::sum::Sum;
use si_netlist::gate::Gate;
use si_netlist::netlist::Netlist;
use std::alloc::Global;

/// The netlist as equations: the lists of its inputs and of its outputs, and an equation for each
/// gate, in signal order. Its other signals are internal. It fails only where memory runs out.
pub fn write_equations(alloc: Global, netlist: &Netlist) -> Result<Text, NoMemory>
    ensures text { IfOk result (λ text. text ≡ equations_text netlist.now) }
    ensures means { IfOk result (λ text. MeansNetlist text netlist.now) }
{
    text_of(alloc, netlist)
}

/// The text of the equations, and what holds of each netlist.
fn text_of(alloc: Global, netlist: &Netlist) -> Result<Text, NoMemory>
    ensures text { IfOk result (λ text. text ≡ equations_text netlist.now) }
    ensures netlist { IsNetlist netlist.now }
{
    let signals = netlist.signals();
    let mut text = Text::copy_of(alloc, b"")?;
    add_list(&mut text, b"INORDER", signals, SigKind::Input)?;
    add_list(&mut text, b"OUTORDER", signals, SigKind::Output)?;
    add_equations(alloc, &mut text, signals, netlist.gates())?;
    Ok(text)
}

/// Adds the line of a word and the names of the signals of a kind.
fn add_list(text: &mut Text, word: &[u8], signals: &[Signal], kind: SigKind) -> Result<(), NoMemory>
    ensures { OnOk result (text.new
        ≡ text.old ++ list_line word.now (names_of kind signals.now) ++ line_feed ∷ []) }
{
    text.add(word)?;
    text.add(b" =")?;
    add_names(text, signals, kind)?;
    text.add(b";\n")
}

/// Adds the names of the signals of a kind, each after a blank.
fn add_names(text: &mut Text, signals: &[Signal], kind: SigKind) -> Result<(), NoMemory>
    ensures { OnOk result
        (text.new ≡ text.old ++ flat_map (λ name. space ∷ name) (names_of kind signals.now)) }
{
    for signal in signals {
        if !is_of_kind(kind, signal.kind) {
            continue;
        }
        text.add(b" ")?;
        text.add(signal.name.bytes())?;
    }
    Ok(())
}

/// Whether two kinds are the same.
fn is_of_kind(a: SigKind, b: SigKind) -> bool
    ensures { result ≡ same_kind a b }
{
    a == b
}

/// Adds a line for each gate and the signal that it drives.
fn add_equations(
    alloc: Global,
    text: &mut Text,
    signals: &[Signal],
    gates: &[Gate],
) -> Result<(), NoMemory>
    ensures { OnOk result (text.new ≡ text.old ++ flat_map (λ line. line ++ line_feed ∷ [])
        (equation_lines signals.now signals.now (map gate_seen gates.now))) }
{
    let mut gates = gates;
    for signal in signals {
        if !signal.kind.is_driven() {
            continue;
        }
        let [gate, rest @ ..] = gates else {
            return Ok(());
        };
        add_equation(alloc, text, signals, signal.name.bytes(), gate)?;
        gates = rest;
    }
    Ok(())
}

/// Adds the line of the gate of a signal with this name.
fn add_equation(
    alloc: Global,
    text: &mut Text,
    signals: &[Signal],
    name: &[u8],
    gate: &Gate,
) -> Result<(), NoMemory>
    ensures { OnOk result (text.new ≡ text.old
        ++ equation_line signals.now name.now (gate_seen gate.now) ++ line_feed ∷ []) }
{
    add_in_brackets(text, name)?;
    text.add(b" = ")?;
    add_gate(alloc, text, signals, name, gate)?;
    text.add(b";\n")
}

/// Adds the expression of the gate of a signal with this name.
fn add_gate(
    alloc: Global,
    text: &mut Text,
    signals: &[Signal],
    name: &[u8],
    gate: &Gate,
) -> Result<(), NoMemory>
    ensures { OnOk result (text.new
        ≡ text.old ++ gate_text signals.now name.now (gate_seen gate.now)) }
{
    match gate {
        Gate::Sum(sum) => add_sum(alloc, text, signals, sum),
        Gate::Gc { set, reset } => add_latch(alloc, text, signals, name, set, reset),
        Gate::Cell { sum, .. } => add_sum(alloc, text, signals, sum),
    }
}

/// Adds the expression of a generalised C-element, which reads its own signal, by this name.
fn add_latch(
    alloc: Global,
    text: &mut Text,
    signals: &[Signal],
    own: &[u8],
    set: &Sum,
    reset: &Sum,
) -> Result<(), NoMemory>
    ensures { OnOk result (text.new
        ≡ text.old ++ gate_text signals.now own.now (Gc set.now reset.now)) }
{
    add_sum(alloc, text, signals, set)?;
    text.add(b" + ")?;
    add_name(text, own)?;
    text.add(b" (")?;
    add_sum(alloc, text, signals, reset)?;
    text.add(b")'")
}
