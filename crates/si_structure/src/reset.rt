//! The parts of a controller's text by which a reset input forces signals.

ghost use Rattle.std.specs.Prelude.{◌≡◌, ◌<◌, ◌++◌, OnOk, flat_map};
ghost use Rattle.si_base.specs.Limits.{max_signals};
ghost use Rattle.si_verilog.specs.ModuleText.{wire_line};
ghost use Rattle.si_structure.specs.StructureText as structure;
ghost use Rattle.si_structure.specs.StructureText.{forced_line, free_nets, reset_lines};

use crate::instance_names::free_net;
use crate::inverters::add_wire;
use si_base::graph::{Signal, signal_name};
use si_base::ids::{NoMemory, Sig};
use si_base::text::Text;
use si_netlist::netlist::Netlist;
use si_resettable::forcing::Forcing;
use si_resettable::write::add_forced;
use si_verilog::names::add_name;
use std::alloc::Global;

/// The signals that the reset input forces: none where there is no such input.
pub(crate) fn forced_by(reset: &Option<Forcing>) -> &[Sig]
    ensures { result.now ≡ structure.forced_by reset.now }
{
    match reset {
        Some(forcing) => forcing.forced(),
        None => &[],
    }
}

/// Adds the wire of the net that the gate of each of these signals drives.
///
/// It fails only where memory runs out. The text may then end in a part of them, and isn't to be
/// used.
pub(crate) fn add_free_wires(
    alloc: Global,
    text: &mut Text,
    signals: &[Signal],
    forced: &[Sig],
) -> Result<(), NoMemory>
    ensures { OnOk result
        (text.new ≡ text.old ++ flat_map wire_line (free_nets signals.now forced.now)) }
{
    for z in forced {
        let net = free_net(alloc, signal_name(signals, *z))?;
        add_wire(text, net.bytes())?;
    }
    Ok(())
}

/// Adds the assign of each signal that the reset input forces.
///
/// It fails only where memory runs out. The text may then end in a part of them, and isn't to be
/// used.
pub(crate) fn add_forced_lines(
    alloc: Global,
    text: &mut Text,
    netlist: &Netlist,
    reset: &Option<Forcing>,
) -> Result<(), NoMemory>
    ensures { OnOk result (text.new ≡ text.old ++ reset_lines netlist.now reset.now) }
{
    let Some(forcing) = reset else {
        return Ok(());
    };
    for z in forcing.forced() {
        add_forced_line(alloc, text, netlist, forcing.name(), *z)?;
    }
    Ok(())
}

/// Adds the assign of signal `z`, which the reset input forces.
fn add_forced_line(
    alloc: Global,
    text: &mut Text,
    netlist: &Netlist,
    reset: &[u8],
    z: Sig,
) -> Result<(), NoMemory>
    requires { z < max_signals }
    ensures { OnOk result (text.new ≡ text.old ++ forced_line netlist.now reset.now z) }
{
    let name = signal_name(netlist.signals(), z);
    let mut free = Text::copy_of(alloc, b"")?;
    add_name(&mut free, free_net(alloc, name)?.bytes())?;
    text.add(b"  assign ")?;
    add_name(text, name)?;
    text.add(b" = ")?;
    add_forced(text, reset, netlist.start().get(z), free.bytes())?;
    text.add(b";\n")
}
