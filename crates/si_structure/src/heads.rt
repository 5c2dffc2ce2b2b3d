//! Heads of modules: their names, ports and wires.

ghost use Rattle.std.specs.Prelude.{◌≡◌, false, [], ◌++◌, IfOk, OnOk, codes, if◌then◌else◌, map};
ghost use Rattle.si_verilog.specs.ModuleText.{port_text, ports_of, ports_text};
ghost use Rattle.si_verilog.specs.Loops.Writing.{is_some, more_ports};
ghost use Rattle.si_structure.specs.StructureText.{head_text, reset_ports};

use si_base::graph::{SigKind, Signal};
use si_base::ids::NoMemory;
use si_base::text::Text;
use si_resettable::forcing::Forcing;
use si_verilog::names::add_name;
use si_verilog::write::{add_ports_of, add_wires};

/// Adds the lines of a module of that name before what drives its signals. A reset input stands in
/// front of the other ports.
///
/// It fails only where memory runs out. The text may then end in a part of them, and isn't to be
/// used.
pub(crate) fn add_head(
    text: &mut Text,
    name: &[u8],
    reset: &Option<Forcing>,
    signals: &[Signal],
) -> Result<(), NoMemory>
    ensures { OnOk result
        (text.new ≡ text.old ++ head_text name.now (reset_ports reset.now) signals.now) }
{
    text.add(b"module ")?;
    add_name(text, name)?;
    text.add(b"(")?;
    add_ports(text, reset, signals)?;
    text.add(b");\n")?;
    add_wires(text, signals, SigKind::Internal)?;
    add_wires(text, signals, SigKind::Inserted)
}

/// Adds the lines of the ports, inputs first.
fn add_ports(text: &mut Text, reset: &Option<Forcing>, signals: &[Signal]) -> Result<(), NoMemory>
    ensures { OnOk result
        (text.new ≡ text.old ++ ports_text (reset_ports reset.now ++ ports_of signals.now)) }
{
    let first = add_reset_port(text, reset)?;
    let inputs = add_ports_of(text, signals, SigKind::Input, b"  input ", first)?;
    let any = add_ports_of(text, signals, SigKind::Output, b"  output ", inputs)?;
    text.add(behind_ports(any))
}

/// Adds the line of the reset input, all but its end, if there is one: that is the answer.
fn add_reset_port(text: &mut Text, reset: &Option<Forcing>) -> Result<bool, NoMemory>
    ensures line { OnOk result
        (text.new ≡ text.old ++ more_ports false (map port_text (reset_ports reset.now))) }
    ensures any { IfOk result (λ any. any ≡ is_some (reset_ports reset.now)) }
{
    match reset {
        Some(forcing) => {
            text.add(b"\n  input ")?;
            add_name(text, forcing.name())?;
            Ok(true)
        }
        None => Ok(false),
    }
}

/// What stands behind the last port line.
fn behind_ports(any: bool) -> &'static [u8]
    ensures { result.now ≡ (if any then codes "\n" else []) }
{
    if any { b"\n" } else { b"" }
}
