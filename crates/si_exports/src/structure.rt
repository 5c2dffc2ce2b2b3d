//! From the texts of a netlist and of a library to modules of Verilog with an instance of a cell
//! for each gate.

ghost use Rattle.std.specs.Prelude.{◌≡◌, ℕ, ◌↔◌, List, Option, Some, None, IfOk, IfErr, IsTrue, Ok};
ghost use Rattle.si_base.specs.Words.{is_signal_name};
ghost use Rattle.si_cell.specs.Library.{cell_at};
ghost use Rattle.si_refusals.specs.Ending.{MayStop, ending_of};
ghost use Rattle.si_readings.specs.declared.library_format.LibraryFormat as formats;
ghost use Rattle.si_exports.specs.Structure as stage;
ghost use Rattle.si_exports.specs.Structure.{IsItsStructure, TellsReason};
ghost use Rattle.si_resettable.specs.Forcing.{Forcing as Reset, IsResetOf};
ghost use Rattle.si_structure.specs.Refusals.{Shows};
ghost use Rattle.si_structure.specs.declared.complements.Complements as complement;

use crate::ported::ported_in;
use si_base::ids::NoMemory;
use si_base::text::{Name, Text};
use si_genlib::ports::PortedLibrary;
use si_netlist::netlist::Netlist;
use si_readings::library_format::LibraryFormat;
use si_readings::readings::netlist_in;
use si_refusals::breach::name_of_signal;
use si_refusals::refusals::Refusal;
use si_resettable::forcing::Forcing;
use si_resettable::refusal::Unresettable;
use si_structure::complements::Complements;
use si_structure::refusal::Unstructured;
use si_structure::write::write_structure;
use std::alloc::Global;

/// The netlist that the first text spells as modules of Verilog: one for each cell that it uses of
/// the library that the other text spells in the format, and one of the controller, with an
/// instance of a cell for each gate, and inverters before complemented pins where these are asked
/// for. A refusal shows the names of the texts' files.
///
/// # Errors
///
/// `BadText` with the first fault of the texts in their order; else, of the first gate that isn't
/// an instance of a cell by literals that are plain or get inverters, `Unplaced` where it is none
/// of any literals, and `Complemented` with its first complemented pin where it is one; else
/// `SameName` exactly where the model has the name of a cell that is used. `NoMemory` only where
/// memory runs out.
pub fn structure<'w>(
    alloc: Global,
    format: LibraryFormat,
    complements: Complements,
    netlist_file: &'w str,
    netlist: &[u8],
    library_file: &'w str,
    library: &[u8],
) -> Result<Text, Refusal<'w>>
    ensures ok { IfOk result (λ output. stage.structure format complements None netlist_file.now
        netlist.now library_file.now library.now (Ok output)) }
    ensures err { IfErr result (λ r. MayStop (stage.structure format complements None
        netlist_file.now netlist.now library_file.now library.now) (ending_of r)) }
{
    let circuit = netlist_in(alloc, netlist_file, netlist)?;
    let cells = ported_in(alloc, format, library_file, library)?;
    structured(alloc, complements, &cells, &None, &circuit)
}

/// The same modules, of which the controller has a reset input of that name, which forces the
/// outputs that bring the netlist to its start values.
///
/// # Errors
///
/// Those of `structure`, and behind the faults of the texts `SameName` exactly where a signal of
/// the netlist has the name.
pub fn resettable_structure<'w>(
    alloc: Global,
    format: LibraryFormat,
    complements: Complements,
    name: &str,
    netlist_file: &'w str,
    netlist: &[u8],
    library_file: &'w str,
    library: &[u8],
) -> Result<Text, Refusal<'w>>
    requires { IsTrue (is_signal_name name.now) }
    ensures ok { IfOk result (λ output. stage.structure format complements (Some name.now)
        netlist_file.now netlist.now library_file.now library.now (Ok output)) }
    ensures err { IfErr result (λ r. MayStop (stage.structure format complements (Some name.now)
        netlist_file.now netlist.now library_file.now library.now) (ending_of r)) }
{
    let controller = netlist_in(alloc, netlist_file, netlist)?;
    let ported = ported_in(alloc, format, library_file, library)?;
    let reset = reset_input(alloc, name, &controller)?;
    structured(alloc, complements, &ported, &reset, &controller)
}

/// The reset input of that name, or why the netlist has no room for it.
fn reset_input(
    alloc: Global,
    name: &str,
    netlist: &Netlist,
) -> Result<Option<Forcing>, Refusal<'static>>
    requires { IsTrue (is_signal_name name.now) }
    ensures ok { IfOk result (λ reset. stage.reset_input (Some name.now) netlist.now (Ok reset)) }
    ensures err { IfErr result
        (λ r. MayStop (stage.reset_input (Some name.now) netlist.now) (ending_of r)) }
{
    match Forcing::of(alloc, netlist, name.as_bytes()) {
        Ok(forcing) => Ok(Some(forcing)),
        Err(Unresettable::NoMemory) => Err(Refusal::NoMemory),
        Err(Unresettable::NotAName) => unreachable!(),
        Err(Unresettable::NameIsTaken) => Err(Refusal::SameName {
            name: Name::copy_of(alloc, name.as_bytes())?,
        }),
    }
}

/// The modules of a netlist over a library, or why it has none.
fn structured(
    alloc: Global,
    complements: Complements,
    library: &PortedLibrary,
    reset: &Option<Forcing>,
    netlist: &Netlist,
) -> Result<Text, Refusal<'static>>
    requires { IsResetOf netlist.now reset.now }
    ensures ok { IfOk result
        (λ text. stage.structured complements library.now reset.now netlist.now (Ok text)) }
    ensures err { IfErr result (λ r.
        MayStop (stage.structured complements library.now reset.now netlist.now) (ending_of r)) }
{
    match write_structure(alloc, library, complements, reset, netlist) {
        Ok(text) => Ok(text),
        Err(why) => Err(refusal_of(alloc, complements, library, netlist, why)?),
    }
}

/// The reason why the netlist has no modules, by the names of the signal, the cell and the pin.
fn refusal_of(
    alloc: Global,
    complements: Complements,
    library: &PortedLibrary,
    netlist: &Netlist,
    why: Unstructured,
) -> Result<Refusal<'static>, NoMemory>
    requires { Shows library.now complements netlist.now why }
    ensures { IfOk result (λ r. (reset : Option Reset)
        → MayStop (stage.structured complements library.now reset netlist.now) (ending_of r)) }
{
    match why {
        Unstructured::NoMemory => Err(NoMemory),
        Unstructured::NoInstance { sig } => {
            let signal = name_of_signal(alloc, netlist.signals(), sig)?;
            Ok(Refusal::Unplaced { signal })
        }
        Unstructured::Complemented { sig, cell, pin } => Ok(Refusal::Complemented {
            signal: name_of_signal(alloc, netlist.signals(), sig)?,
            cell: cell_name(alloc, library, cell)?,
            pin: pin_name(alloc, library, cell, pin)?,
        }),
        Unstructured::ModelIsCell => Ok(Refusal::SameName {
            name: Name::copy_of(alloc, netlist.model().bytes())?,
        }),
    }
}

/// The name of the cell at that place of the library; nothing where there is none.
fn cell_name(alloc: Global, library: &PortedLibrary, cell: u8) -> Result<Name, NoMemory>
    ensures { IfOk result (λ name. name ≡ (cell_at library.now.library cell).name) }
{
    match library.library().cells().get(cell as usize) {
        Some(cell) => Name::copy_of(alloc, cell.name.bytes()),
        None => Name::copy_of(alloc, b""),
    }
}

/// The name of its pin of that number, from 0; nothing where there is none.
fn pin_name(alloc: Global, library: &PortedLibrary, cell: u8, pin: u8) -> Result<Name, NoMemory>
    ensures { IfOk result (λ name. name ≡ stage.pin_name library.now cell pin) }
{
    let Some(ports) = library.ports().get(cell as usize) else {
        return Name::copy_of(alloc, b"");
    };
    match ports.pins.get(pin as usize) {
        Some(name) => Name::copy_of(alloc, name.bytes()),
        None => Name::copy_of(alloc, b""),
    }
}

/// A law, whose function does nothing: texts come to an output exactly where they have no fault and
/// each gate is an instance of a cell by literals that are plain or get inverters, no used cell
/// has the model's name, and no signal that of the reset input: to modules, which mean the netlist
/// over the library, with that input.
pub fn netlists_become_structures()
    ensures { (format : formats.LibraryFormat) (complements : complement.Complements)
        (name : Option (List ℕ)) (netlist netlist_text library library_text output : List ℕ)
        → stage.structure format complements name netlist netlist_text library library_text
        (Ok output)
        ↔ IsItsStructure format complements name netlist_text library_text output }
{}
