//! Writes a netlist as a module of Verilog with a reset input.

ghost use Rattle.std.specs.Prelude.{◌≡◌, ◌<◌, [], ◌∷◌, ◌++◌, IfErr, IfOk, OnOk, codes};
ghost use Rattle.std.specs.Prelude.{flat_map, if◌then◌else◌};
ghost use Rattle.si_base.specs.Bytes.{tilde};
ghost use Rattle.si_base.specs.Graph.{IsNonInput};
ghost use Rattle.si_base.specs.Limits.{max_signals};
ghost use Rattle.si_base.specs.WellFormed.{IsNetlist};
ghost use Rattle.si_loops.specs.Arcs.{gated};
ghost use Rattle.si_settled.specs.Settling as settling;
ghost use Rattle.si_verilog.specs.Grammar.{InputPort};
ghost use Rattle.si_verilog.specs.ModuleText.{ports_of, ports_text};
ghost use Rattle.si_resettable.specs.Meaning.{MeansResettable};
ghost use Rattle.si_resettable.specs.Refusals.{HasRoomFor, Shows};
ghost use Rattle.si_resettable.specs.ResettableText.{IsResettableText, assign_line};
ghost use Rattle.si_resettable.specs.ResettableText.{expression_text, forced_text};
ghost use Rattle.si_resettable.specs.ResettableText.{plain_text, resettable_text};

use crate::forcing::Forcing;
use crate::refusal::Unresettable;
use si_base::graph::{SigKind, Signal, signal_name};
use si_base::ids::{NoMemory, Sig};
use si_base::text::Text;
use si_loops::arcs::driven;
use si_netlist::netlist::Netlist;
use si_verilog::names::add_name;
use si_verilog::write::{add_gate, add_ports_of, add_wires};
use std::alloc::Global;

/// The netlist as a module of Verilog with a further input, `reset`, in front of its ports. While
/// that is 1, the outputs to force have their start values, and with them the netlist comes to its
/// start values; while it is 0, each assign is its gate.
///
/// # Errors
///
/// `NotAName` where `reset` isn't a name that a signal may have, `NameIsTaken` where it is that of
/// a signal of the netlist. `NoMemory` where memory runs out.
pub fn write_resettable(
    alloc: Global,
    netlist: &Netlist,
    reset: &[u8],
) -> Result<Text, Unresettable>
    ensures room { IfOk result (λ _. HasRoomFor netlist.now reset.now) }
    ensures text { IfOk result (IsResettableText netlist.now reset.now) }
    ensures means { IfOk result (λ text. MeansResettable text netlist.now reset.now) }
    ensures err { IfErr result (Shows netlist.now reset.now) }
{
    let forcing = Forcing::of(alloc, netlist, reset)?;
    let text = text_of(alloc, netlist, forcing.forced(), reset)?;
    Ok(text)
}

/// The text of the module with that reset input, which forces these signals, and what holds of each
/// netlist.
fn text_of(alloc: Global, netlist: &Netlist, forced: &[Sig], reset: &[u8]) -> Result<Text, NoMemory>
    ensures text { IfOk result (λ text.
        text ≡ resettable_text netlist.now forced.now reset.now) }
    ensures netlist { IsNetlist netlist.now }
{
    let signals = netlist.signals();
    let mut text = Text::copy_of(alloc, b"module ")?;
    add_name(&mut text, netlist.model().bytes())?;
    text.add(b"(")?;
    add_ports(&mut text, signals, reset)?;
    text.add(b");\n")?;
    add_wires(&mut text, signals, SigKind::Internal)?;
    add_wires(&mut text, signals, SigKind::Inserted)?;
    add_assigns(alloc, &mut text, netlist, forced, reset)?;
    text.add(b"endmodule\n")?;
    Ok(text)
}

/// Adds the lines of the ports: the reset input, the inputs, the outputs.
fn add_ports(text: &mut Text, signals: &[Signal], reset: &[u8]) -> Result<(), NoMemory>
    ensures { OnOk result
        (text.new ≡ text.old ++ ports_text (InputPort reset.now ∷ ports_of signals.now)) }
{
    text.add(b"\n  input ")?;
    add_name(text, reset)?;
    add_ports_of(text, signals, SigKind::Input, b"  input ", true)?;
    add_ports_of(text, signals, SigKind::Output, b"  output ", true)?;
    text.add(b"\n")
}

/// Adds a line for each signal with a gate.
fn add_assigns(
    alloc: Global,
    text: &mut Text,
    netlist: &Netlist,
    forced: &[Sig],
    reset: &[u8],
) -> Result<(), NoMemory>
    ensures { OnOk result (text.new ≡ text.old
        ++ flat_map (assign_line netlist.now forced.now reset.now) (gated netlist.now.signals)) }
{
    let gates = driven(alloc, netlist)?;
    for z in gates.as_slice() {
        add_assign(alloc, text, netlist, *z, forced, reset)?;
    }
    Ok(())
}

/// Adds the line of signal `z`.
fn add_assign(
    alloc: Global,
    text: &mut Text,
    netlist: &Netlist,
    z: Sig,
    forced: &[Sig],
    reset: &[u8],
) -> Result<(), NoMemory>
    requires gate { IsNonInput netlist.now.signals z }
    requires within { z < max_signals }
    ensures { OnOk result
        (text.new ≡ text.old ++ assign_line netlist.now forced.now reset.now z) }
{
    text.add(b"  assign ")?;
    add_name(text, signal_name(netlist.signals(), z))?;
    text.add(b" = ")?;
    add_expression(alloc, text, netlist, z, forced, reset)?;
    text.add(b";\n")
}

/// Adds the expression of signal `z`.
fn add_expression(
    alloc: Global,
    text: &mut Text,
    netlist: &Netlist,
    z: Sig,
    forced: &[Sig],
    reset: &[u8],
) -> Result<(), NoMemory>
    requires gate { IsNonInput netlist.now.signals z }
    requires within { z < max_signals }
    ensures { OnOk result
        (text.new ≡ text.old ++ expression_text netlist.now forced.now reset.now z) }
{
    let mut plain = Text::copy_of(alloc, b"")?;
    add_plain(alloc, &mut plain, netlist, z)?;
    if !is_among(forced, z) {
        return text.add(plain.bytes());
    }
    let value = netlist.start().get(z);
    add_forced(text, reset, value, plain.bytes())
}

/// Adds an expression with the reset input, which forces that value: while the input is 0 it has
/// the value of the expression that is given.
///
/// It fails only where memory runs out. The text may then end in a part of it, and isn't to be
/// used.
pub fn add_forced(text: &mut Text, reset: &[u8], value: bool, plain: &[u8]) -> Result<(), NoMemory>
    ensures { OnOk result (text.new ≡ text.old ++ forced_text reset.now value plain.now) }
{
    text.add(sign(value))?;
    add_name(text, reset)?;
    text.add(joint(value))?;
    text.add(plain)?;
    text.add(b")")
}

/// Whether signal `z` is one of them.
fn is_among(signals: &[Sig], z: Sig) -> bool
    ensures { result ≡ settling.is_among signals.now z }
{
    signals.iter().any(|k| *k == z)
}

/// Adds the expression of the gate of signal `z`.
fn add_plain(alloc: Global, text: &mut Text, netlist: &Netlist, z: Sig) -> Result<(), NoMemory>
    requires { IsNonInput netlist.now.signals z }
    ensures { OnOk result (text.new ≡ text.old ++ plain_text netlist.now z) }
{
    let signals = netlist.signals();
    let name = signal_name(signals, z);
    add_gate(alloc, text, signals, name, netlist.gate_of(z))
}

/// What stands before the reset input where it forces this value.
fn sign(value: bool) -> &'static [u8]
    ensures { result.now ≡ (if value then [] else tilde ∷ []) }
{
    if value { b"" } else { b"~" }
}

/// What stands between the reset input and the expression where it forces this value.
fn joint(value: bool) -> &'static [u8]
    ensures { result.now ≡ (if value then codes " | (" else codes " & (") }
{
    if value { b" | (" } else { b" & (" }
}
