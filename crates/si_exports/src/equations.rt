//! From the text of a netlist to equations.

ghost use Rattle.std.specs.Prelude.{ℕ, ◌↔◌, List, IfOk, IfErr, Ok, Err};
ghost use Rattle.si_netlist_reader.specs.NetlistFault.{netlist_fault};
ghost use Rattle.si_refusals.specs.Ending.{MayStop, ending_of};
ghost use Rattle.si_refusals.specs.Refusal.{TextRefusal};
ghost use Rattle.si_readings.specs.Readings.{TellsFault};
ghost use Rattle.si_exports.specs.Equations as stage;
ghost use Rattle.si_exports.specs.Equations.{AreItsEquations};

use si_base::text::Text;
use si_equations::write::write_equations;
use si_readings::readings::netlist_in;
use si_refusals::refusals::Refusal;
use std::alloc::Global;

/// The netlist that the text spells, in either version, as equations. A refusal shows the name of
/// the text's file.
///
/// # Errors
///
/// `BadText` exactly where the text has a fault, with the first. `NoMemory` only where memory runs
/// out.
pub fn equations<'w>(alloc: Global, file: &'w str, text: &[u8]) -> Result<Text, Refusal<'w>>
    ensures ok { IfOk result (λ output. stage.equations file.now text.now (Ok output)) }
    ensures err { IfErr result (λ r. MayStop (stage.equations file.now text.now) (ending_of r)) }
{
    let netlist = netlist_in(alloc, file, text)?;
    let output = write_equations(alloc, &netlist)?;
    Ok(output)
}

/// A law, whose function does nothing: a text comes to an output exactly where it has no fault, to
/// its netlist as equations, which mean that netlist; and to a refusal exactly where it has a
/// fault, with the first.
pub fn netlists_become_equations()
    ensures output { (file text output : List ℕ)
        → stage.equations file text (Ok output) ↔ AreItsEquations text output }
    ensures refusal { (file text : List ℕ) (refusal : TextRefusal)
        → stage.equations file text (Err refusal)
        ↔ TellsFault file (netlist_fault text) refusal }
{}
