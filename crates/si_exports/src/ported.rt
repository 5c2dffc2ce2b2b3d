//! From the text of a library to its cells, with the names of their ports.

ghost use Rattle.std.specs.Prelude.{IfOk, IfErr, Ok};
ghost use Rattle.si_base.specs.TextFaults.{Gives};
ghost use Rattle.si_refusals.specs.Ending.{MayStop, ending_of};
ghost use Rattle.si_readings.specs.Readings.{fault_in};
ghost use Rattle.si_exports.specs.Ported as stage;

use si_base::fault::TextFault;
use si_cell::reader::read_library;
use si_genlib::ports::PortedLibrary;
use si_genlib::reader::read_ported;
use si_readings::library_format::LibraryFormat;
use si_refusals::refusals::Refusal;
use std::alloc::Global;

/// The library that the text spells in the format, with the names of the ports of its cells. A
/// refusal shows the name of the text's file.
///
/// # Errors
///
/// `BadText` exactly where the text has a fault, with the first. `NoMemory` only where memory runs
/// out.
pub(crate) fn ported_in<'w>(
    alloc: Global,
    format: LibraryFormat,
    file: &'w str,
    text: &[u8],
) -> Result<PortedLibrary, Refusal<'w>>
    ensures ok { IfOk result (λ l. stage.ported_in format file.now text.now (Ok l)) }
    ensures err { IfErr result (λ r.
        MayStop (stage.ported_in format file.now text.now) (ending_of r)) }
{
    match ported_from(alloc, format, text) {
        Ok(library) => Ok(library),
        Err(TextFault::NoMemory) => Err(Refusal::NoMemory),
        Err(TextFault::At { line, kind }) => Err(Refusal::BadText { file, line, kind }),
    }
}

/// The same, or the first fault of the text.
fn ported_from(
    alloc: Global,
    format: LibraryFormat,
    text: &[u8],
) -> Result<PortedLibrary, TextFault>
    ensures { Gives (λ ported. ported) result (fault_in format text.now)
        (stage.ported_from format text.now) }
{
    match format {
        LibraryFormat::Own(_) => {
            let library = read_library(alloc, text)?;
            Ok(PortedLibrary::of_own(alloc, library)?)
        }
        LibraryFormat::Genlib(_) => read_ported(alloc, text),
    }
}
