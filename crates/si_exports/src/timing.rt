//! From the texts of a netlist and of a library to commands for a timing tool.

ghost use Rattle.std.specs.Prelude.{ℕ, ◌↔◌, List, IfOk, IfErr, Ok};
ghost use Rattle.si_refusals.specs.Ending.{MayStop, ending_of};
ghost use Rattle.si_readings.specs.declared.library_format.LibraryFormat as formats;
ghost use Rattle.si_exports.specs.Timing as stage;
ghost use Rattle.si_exports.specs.Timing.{IsItsTiming};

use crate::ported::ported_in;
use si_base::text::Text;
use si_genlib::ports::PortedLibrary;
use si_netlist::netlist::Netlist;
use si_readings::library_format::LibraryFormat;
use si_readings::readings::netlist_in;
use si_refusals::breach::name_of_signal;
use si_refusals::refusals::Refusal;
use si_timing::refusal::Untimed;
use si_timing::write::write_timing;
use std::alloc::Global;

/// Where the loops are cut of the netlist that the first text spells, over the library that the
/// other spells in the format: commands by which a timing tool leaves out arcs inside the instances
/// of `structure`, so that it meets no loop. A refusal shows the names of the texts' files.
///
/// # Errors
///
/// `BadText` with the first fault of the texts in their order; else `Unplaced` with the first gate
/// that isn't an instance of a cell. `NoMemory` only where memory runs out.
pub fn timing<'w>(
    alloc: Global,
    format: LibraryFormat,
    netlist_file: &'w str,
    netlist: &[u8],
    library_file: &'w str,
    library: &[u8],
) -> Result<Text, Refusal<'w>>
    ensures ok { IfOk result (λ output. stage.timing format netlist_file.now netlist.now
        library_file.now library.now (Ok output)) }
    ensures err { IfErr result (λ r. MayStop (stage.timing format netlist_file.now netlist.now
        library_file.now library.now) (ending_of r)) }
{
    let circuit = netlist_in(alloc, netlist_file, netlist)?;
    let cells = ported_in(alloc, format, library_file, library)?;
    timed(alloc, &cells, &circuit)
}

/// Where the loops of a netlist over a library are cut, or why it has no such text.
fn timed(
    alloc: Global,
    library: &PortedLibrary,
    netlist: &Netlist,
) -> Result<Text, Refusal<'static>>
    ensures ok { IfOk result (λ text. stage.timed library.now netlist.now (Ok text)) }
    ensures err { IfErr result
        (λ r. MayStop (stage.timed library.now netlist.now) (ending_of r)) }
{
    let why = match write_timing(alloc, library, netlist) {
        Ok(text) => return Ok(text),
        Err(why) => why,
    };
    match why {
        Untimed::NoMemory => Err(Refusal::NoMemory),
        Untimed::NoInstance { sig } => {
            let signal = name_of_signal(alloc, netlist.signals(), sig)?;
            Err(Refusal::Unplaced { signal })
        }
    }
}

/// A law, whose function does nothing: texts come to an output exactly where they have no fault and
/// each gate is an instance of a cell: to commands that leave no loop in the instances.
pub fn netlists_come_to_timing()
    ensures { (format : formats.LibraryFormat)
        (netlist netlist_text library library_text output : List ℕ)
        → stage.timing format netlist netlist_text library library_text (Ok output)
        ↔ IsItsTiming format netlist_text library_text output }
{}
