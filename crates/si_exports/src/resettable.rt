//! From the text of a netlist to a module of Verilog with a reset input.

ghost use Rattle.std.specs.Prelude.{ℕ, ◌↔◌, List, IfOk, IfErr, IsTrue, Ok};
ghost use Rattle.si_base.specs.Words.{is_signal_name};
ghost use Rattle.si_refusals.specs.Ending.{MayStop, ending_of};
ghost use Rattle.si_exports.specs.Resettable as stage;
ghost use Rattle.si_exports.specs.Resettable.{IsItsResettable};

use si_base::text::{Name, Text};
use si_netlist::netlist::Netlist;
use si_readings::readings::netlist_in;
use si_refusals::refusals::Refusal;
use si_resettable::refusal::Unresettable;
use si_resettable::write::write_resettable;
use std::alloc::Global;

/// The netlist that the text spells, in either version, as a module with a reset input of that
/// name, which forces the outputs that bring it to its start values. A refusal shows the name of
/// the text's file, or of the input.
///
/// # Errors
///
/// `BadText` exactly where the text has a fault, with the first; else `SameName` exactly where a
/// signal of the netlist has the name. `NoMemory` only where memory runs out.
pub fn resettable<'w>(
    alloc: Global,
    file: &'w str,
    text: &[u8],
    name: &str,
) -> Result<Text, Refusal<'w>>
    requires { IsTrue (is_signal_name name.now) }
    ensures ok { IfOk result
        (λ output. stage.resettable file.now text.now name.now (Ok output)) }
    ensures err { IfErr result
        (λ r. MayStop (stage.resettable file.now text.now name.now) (ending_of r)) }
{
    let netlist = netlist_in(alloc, file, text)?;
    with_reset(alloc, name, &netlist)
}

/// The module of a netlist with a reset input of the name, or why it has none.
fn with_reset(alloc: Global, name: &str, netlist: &Netlist) -> Result<Text, Refusal<'static>>
    requires { IsTrue (is_signal_name name.now) }
    ensures ok { IfOk result (λ text. stage.with_reset name.now netlist.now (Ok text)) }
    ensures err { IfErr result
        (λ r. MayStop (stage.with_reset name.now netlist.now) (ending_of r)) }
{
    match write_resettable(alloc, netlist, name.as_bytes()) {
        Ok(text) => Ok(text),
        Err(Unresettable::NoMemory) => Err(Refusal::NoMemory),
        Err(Unresettable::NotAName) => unreachable!(),
        Err(Unresettable::NameIsTaken) => Err(Refusal::SameName {
            name: Name::copy_of(alloc, name.as_bytes())?,
        }),
    }
}

/// A law, whose function does nothing: a text comes to an output exactly where it has no fault and
/// no signal of its netlist has the name of the input: to the netlist as a module with that reset
/// input, which means it.
pub fn netlists_become_resettable()
    ensures { (file text name output : List ℕ)
        → stage.resettable file text name (Ok output) ↔ IsItsResettable text name output }
{}
