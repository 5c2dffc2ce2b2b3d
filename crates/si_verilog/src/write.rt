//! Writes a netlist as a module of Verilog.

ghost use Rattle.std.specs.Prelude.{◌≡◌, ◌||◌, [], ◌++◌, IfOk, OnOk, codes};
ghost use Rattle.std.specs.Prelude.{flat_map, map, if◌then◌else◌};
ghost use Rattle.si_base.specs.NetlistText.{names_of, same_kind};
ghost use Rattle.si_base.specs.Netlist.{Gc};
ghost use Rattle.si_base.specs.WellFormed.{IsNetlist};
ghost use Rattle.si_netlist.specs.Loops.Parts.{gate_seen};
ghost use Rattle.si_verilog.specs.Meaning.{MeansNetlist};
ghost use Rattle.si_verilog.specs.ModuleText.{assign_line, assign_lines, gate_text, ports_of};
ghost use Rattle.si_verilog.specs.ModuleText.{ports_text, verilog_text, wire_line};
ghost use Rattle.si_verilog.specs.Loops.Writing.{before_port as line_before, is_some, more_ports};
ghost use Rattle.si_verilog.specs.Loops.Writing.{port_lines};

use crate::names::add_name;
use crate::write_sums::add_sum;
use si_base::graph::{SigKind, Signal};
use si_base::ids::NoMemory;
use si_base::text::Text;
use si_cube::sum::Sum;
use si_netlist::gate::Gate;
use si_netlist::netlist::Netlist;
use std::alloc::Global;

/// The netlist as a module of Verilog: its inputs and outputs are the ports, its other signals are
/// wires, and each gate is an assign. It fails only where memory runs out.
pub fn write_verilog(alloc: Global, netlist: &Netlist) -> Result<Text, NoMemory>
    ensures text { IfOk result (λ text. text ≡ verilog_text netlist.now) }
    ensures means { IfOk result (λ text. MeansNetlist text netlist.now) }
{
    text_of(alloc, netlist)
}

/// The text of the module, and what holds of each netlist.
fn text_of(alloc: Global, netlist: &Netlist) -> Result<Text, NoMemory>
    ensures text { IfOk result (λ text. text ≡ verilog_text netlist.now) }
    ensures netlist { IsNetlist netlist.now }
{
    let signals = netlist.signals();
    let mut text = Text::copy_of(alloc, b"module ")?;
    add_name(&mut text, netlist.model().bytes())?;
    text.add(b"(")?;
    add_ports(&mut text, signals)?;
    text.add(b");\n")?;
    add_wires(&mut text, signals, SigKind::Internal)?;
    add_wires(&mut text, signals, SigKind::Inserted)?;
    add_assigns(alloc, &mut text, signals, netlist.gates())?;
    text.add(b"endmodule\n")?;
    Ok(text)
}

/// Adds the lines of the ports, inputs first.
fn add_ports(text: &mut Text, signals: &[Signal]) -> Result<(), NoMemory>
    ensures { OnOk result (text.new ≡ text.old ++ ports_text (ports_of signals.now)) }
{
    let inputs = add_ports_of(text, signals, SigKind::Input, b"  input ", false)?;
    let any = add_ports_of(text, signals, SigKind::Output, b"  output ", inputs)?;
    text.add(behind_ports(any))
}

/// Adds the lines of the ports of a kind, all but the end of the last, where ports stand before
/// them or none does. The answer is whether a port stands before what comes next.
///
/// It fails only where memory runs out. The text may then end in a part of them, and isn't to be
/// used.
pub fn add_ports_of(
    text: &mut Text,
    signals: &[Signal],
    kind: SigKind,
    word: &[u8],
    before: bool,
) -> Result<bool, NoMemory>
    ensures lines { OnOk result
        (text.new ≡ text.old ++ more_ports before (port_lines word.now kind signals.now)) }
    ensures any { IfOk result (λ any. any ≡ (before || is_some (names_of kind signals.now))) }
{
    let mut any = before;
    for signal in signals {
        if !is_of_kind(kind, signal.kind) {
            continue;
        }
        text.add(before_port(any))?;
        text.add(word)?;
        add_name(text, signal.name.bytes())?;
        any = true;
    }
    Ok(any)
}

/// What stands before a port line, where a port stands before it or none does.
fn before_port(any: bool) -> &'static [u8]
    ensures { result.now ≡ line_before any }
{
    if any { b",\n" } else { b"\n" }
}

/// What stands behind the last port line.
fn behind_ports(any: bool) -> &'static [u8]
    ensures { result.now ≡ (if any then codes "\n" else []) }
{
    if any { b"\n" } else { b"" }
}

/// Whether two kinds are the same.
fn is_of_kind(a: SigKind, b: SigKind) -> bool
    ensures { result ≡ same_kind a b }
{
    a == b
}

/// Adds a line for each signal of the kind, as a wire.
///
/// It fails only where memory runs out. The text may then end in a part of them, and isn't to be
/// used.
pub fn add_wires(text: &mut Text, signals: &[Signal], kind: SigKind) -> Result<(), NoMemory>
    ensures { OnOk result
        (text.new ≡ text.old ++ flat_map wire_line (names_of kind signals.now)) }
{
    for signal in signals {
        if !is_of_kind(kind, signal.kind) {
            continue;
        }
        text.add(b"  wire ")?;
        add_name(text, signal.name.bytes())?;
        text.add(b";\n")?;
    }
    Ok(())
}

/// Adds a line for each gate and the signal that it drives.
fn add_assigns(
    alloc: Global,
    text: &mut Text,
    signals: &[Signal],
    gates: &[Gate],
) -> Result<(), NoMemory>
    ensures { OnOk result (text.new
        ≡ text.old ++ assign_lines signals.now signals.now (map gate_seen gates.now)) }
{
    let mut gates = gates;
    for signal in signals {
        if !signal.kind.is_driven() {
            continue;
        }
        let [gate, rest @ ..] = gates else {
            return Ok(());
        };
        add_assign(alloc, text, signals, signal.name.bytes(), gate)?;
        gates = rest;
    }
    Ok(())
}

/// Adds the line of the gate of a signal with this name.
fn add_assign(
    alloc: Global,
    text: &mut Text,
    signals: &[Signal],
    name: &[u8],
    gate: &Gate,
) -> Result<(), NoMemory>
    ensures { OnOk result (text.new
        ≡ text.old ++ assign_line signals.now name.now (gate_seen gate.now)) }
{
    text.add(b"  assign ")?;
    add_name(text, name)?;
    text.add(b" = ")?;
    add_gate(alloc, text, signals, name, gate)?;
    text.add(b";\n")
}

/// Adds the expression of the gate of a signal with this name.
///
/// It fails only where memory runs out. The text may then end in a part of it, and isn't to be
/// used.
pub fn add_gate(
    alloc: Global,
    text: &mut Text,
    signals: &[Signal],
    name: &[u8],
    gate: &Gate,
) -> Result<(), NoMemory>
    ensures { OnOk result (text.new
        ≡ text.old ++ gate_text signals.now name.now (gate_seen gate.now)) }
{
    match gate {
        Gate::Sum(sum) => add_sum(alloc, text, signals, sum),
        Gate::Gc { set, reset } => add_latch(alloc, text, signals, name, set, reset),
        Gate::Cell { sum, .. } => add_sum(alloc, text, signals, sum),
    }
}

/// Adds the expression of a generalised C-element, which reads its own signal, by this name.
fn add_latch(
    alloc: Global,
    text: &mut Text,
    signals: &[Signal],
    own: &[u8],
    set: &Sum,
    reset: &Sum,
) -> Result<(), NoMemory>
    ensures { OnOk result (text.new
        ≡ text.old ++ gate_text signals.now own.now (Gc set.now reset.now)) }
{
    text.add(b"(")?;
    add_sum(alloc, text, signals, set)?;
    text.add(b") | (")?;
    add_name(text, own)?;
    text.add(b" & ~(")?;
    add_sum(alloc, text, signals, reset)?;
    text.add(b"))")
}
