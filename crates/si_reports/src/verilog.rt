//! From the text of a netlist to a module of Verilog.

ghost use Rattle.std.specs.Prelude.{ℕ, ◌↔◌, List, IfOk, IfErr, Ok, Err};
ghost use Rattle.si_netlist_reader.specs.NetlistFault.{netlist_fault};
ghost use Rattle.si_refusals.specs.Ending.{MayStop, ending_of};
ghost use Rattle.si_refusals.specs.Refusal.{TextRefusal};
ghost use Rattle.si_readings.specs.Readings.{TellsFault};
ghost use Rattle.si_reports.specs.Verilog as stage;
ghost use Rattle.si_reports.specs.Verilog.{IsItsModule};

use si_base::text::Text;
use si_readings::readings::netlist_in;
use si_refusals::refusals::Refusal;
use si_verilog::write::write_verilog;
use std::alloc::Global;

/// The netlist that the text spells, in either version, as a module of Verilog. A refusal shows the
/// name of the text's file.
///
/// # Errors
///
/// `BadText` exactly where the text has a fault, with the first. `NoMemory` only where memory runs
/// out.
pub fn verilog<'w>(alloc: Global, file: &'w str, text: &[u8]) -> Result<Text, Refusal<'w>>
    ensures ok { IfOk result (λ output. stage.verilog file.now text.now (Ok output)) }
    ensures err { IfErr result (λ r. MayStop (stage.verilog file.now text.now) (ending_of r)) }
{
    let netlist = netlist_in(alloc, file, text)?;
    let output = write_verilog(alloc, &netlist)?;
    Ok(output)
}

/// A law, whose function does nothing: a text comes to an output exactly where it has no fault, to
/// its netlist as a module, which means that netlist; and to a refusal exactly where it has a
/// fault, with the first.
pub fn netlists_become_modules()
    ensures output { (file text output : List ℕ)
        → stage.verilog file text (Ok output) ↔ IsItsModule text output }
    ensures refusal { (file text : List ℕ) (refusal : TextRefusal)
        → stage.verilog file text (Err refusal)
        ↔ TellsFault file (netlist_fault text) refusal }
{}
