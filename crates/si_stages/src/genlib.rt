//! From the text of a library in genlib to its text in the tool's own format.

ghost use Rattle.std.specs.Prelude.{ℕ, ◌↔◌, List, IfOk, IfErr, Ok, Err};
ghost use Rattle.si_cell.specs.declared.pins.Pins.{Pins as PinsValue};
ghost use Rattle.si_genlib.specs.GenlibText.{genlib_fault};
ghost use Rattle.si_refusals.specs.Ending.{MayStop, ending_of};
ghost use Rattle.si_refusals.specs.Refusal.{TextRefusal};
ghost use Rattle.si_stages.specs.Genlib as stage;
ghost use Rattle.si_stages.specs.Genlib.{IsItsLibrary};
ghost use Rattle.si_stages.specs.Meaning.{mapping};
ghost use Rattle.si_readings.specs.Readings.{TellsFault};
ghost use Rattle.si_readings.specs.declared.library_format.LibraryFormat.TheVariants as formats;

use si_base::text::Text;
use si_cell::pins::Pins;
use si_genlib::write::write_library;
use si_readings::library_format::LibraryFormat;
use si_readings::readings::library_in;
use si_refusals::refusals::Refusal;
use std::alloc::Global;

/// The library that the text spells in genlib, in the tool's own format. A refusal shows the name
/// of the text's file.
///
/// # Errors
///
/// `BadText` exactly where the text has a fault, with the first. `NoMemory` only where memory runs
/// out.
pub fn genlib<'w>(alloc: Global, file: &'w str, text: &[u8]) -> Result<Text, Refusal<'w>>
    ensures ok { IfOk result (λ output. stage.genlib file.now text.now (Ok output)) }
    ensures err { IfErr result (λ r. MayStop (stage.genlib file.now text.now) (ending_of r)) }
{
    let library = library_in(alloc, LibraryFormat::Genlib(Pins::Any), file, text)?;
    let output = write_library(alloc, &library)?;
    Ok(output)
}

/// A law, whose function does nothing: a text of genlib comes to an output exactly where it has no
/// fault, to its library, which is read back from the output; and to a refusal exactly where it has
/// a fault, with the first.
pub fn genlib_texts_become_libraries()
    ensures output { (file text output : List ℕ)
        → stage.genlib file text (Ok output) ↔ IsItsLibrary text output }
    ensures refusal { (file text : List ℕ) (refusal : TextRefusal)
        → stage.genlib file text (Err refusal) ↔ TellsFault file (genlib_fault text) refusal }
{}

/// A law, whose function does nothing: a graph is mapped to the gates of a genlib text as it is
/// mapped to the cells of the text that `genlib` writes for it, with pins of either kind.
pub fn gates_are_mapped_as_their_cells()
    ensures { (pins : PinsValue)
        (graph graph_text gates gates_text cells cells_text output : List ℕ)
        → stage.genlib gates gates_text (Ok cells_text)
        → mapping (formats.Genlib pins) graph graph_text gates gates_text (Ok output)
        ↔ mapping (formats.Own pins) graph graph_text cells cells_text (Ok output) }
{}
