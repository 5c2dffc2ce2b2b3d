//! The names that gates give to the ports of their cells.

ghost use Rattle.std.specs.Prelude.{◌≡◌, IfOk, OnOk};
ghost use Rattle.si_words.specs.Loops.Reads.{words_now};
ghost use Rattle.si_genlib.specs.Gate.{Gate as GateValue, with_ports};
ghost use Rattle.si_genlib.specs.Loops.Held.{gate_now};
ghost use Rattle.si_genlib.specs.Loops.Tables.{tabled};

use crate::gate::Gate;
use crate::ports::Ports;
use si_base::ids::NoMemory;
use si_base::text::Name;
use std::alloc::Global;

/// Copies of the names.
fn copies_of(alloc: Global, names: &[&[u8]]) -> Result<Vec<Name>, NoMemory>
    ensures { IfOk result (λ copies. copies.items ≡ words_now names.now) }
{
    let mut copies = Vec::new(alloc);
    for name in names {
        copies.push(Name::copy_of(alloc, *name)?)?;
    }
    Ok(copies)
}

/// The names that the gate gives to the ports of its cell.
fn ports_of(alloc: Global, gate: &Gate<'_>) -> Result<Ports, NoMemory>
    ensures { IfOk result (λ ports. ports
        ≡ record { pins = words_now gate.now.pins.names.items; output = gate.now.out.now }) }
{
    let pins = copies_of(alloc, &gate.pins.names)?;
    let output = Name::copy_of(alloc, gate.out)?;
    Ok(Ports { pins, output })
}

/// Adds the names of the ports of a gate's cell, if the gate isn't passed over.
pub(crate) fn keep_ports(
    alloc: Global,
    ports: &mut Vec<Ports>,
    gate: &Gate<'_>,
) -> Result<(), NoMemory>
    ensures { (g : GateValue) → tabled g ≡ gate_now gate.now
        → OnOk result (ports.new.items ≡ with_ports ports.old.items g) }
{
    if gate.pins.more {
        return Ok(());
    }
    ports.push(ports_of(alloc, gate)?)?;
    Ok(())
}
