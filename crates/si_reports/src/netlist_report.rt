//! From the text of a netlist to a report on it.

ghost use Rattle.std.specs.Prelude.{IfOk, IfErr, Ok};
ghost use Rattle.si_refusals.specs.Ending.{MayStop, ending_of};
ghost use Rattle.si_reports.specs.NetlistReports as stage;

use si_base::ids::NoMemory;
use si_base::text::Text;
use si_loops::write::write_loops;
use si_netlist::netlist::Netlist;
use si_readings::readings::netlist_in;
use si_refusals::refusals::Refusal;
use si_settled::write::write_reset;
use std::alloc::Global;

/// What is told of a netlist.
#[derive(Clone, Copy, PartialEq, Eq, Debug)]
pub enum NetlistReport {
    /// The arcs that are cut, so that no loop is left.
    Loops,
    /// The gates that settle while the inputs are held, and the outputs to force.
    Reset,
}

/// The report on the netlist that the text spells, in either version. A refusal shows the name of
/// the text's file.
///
/// # Errors
///
/// `BadText` exactly where the text has a fault, with the first. `NoMemory` only where memory runs
/// out.
pub fn netlist_report<'w>(
    alloc: Global,
    what: NetlistReport,
    file: &'w str,
    text: &[u8],
) -> Result<Text, Refusal<'w>>
    ensures ok { IfOk result
        (λ output. stage.netlist_report what file.now text.now (Ok output)) }
    ensures err { IfErr result
        (λ r. MayStop (stage.netlist_report what file.now text.now) (ending_of r)) }
{
    let netlist = netlist_in(alloc, file, text)?;
    let output = text_of(alloc, what, &netlist)?;
    Ok(output)
}

/// What is told of a netlist.
fn text_of(alloc: Global, what: NetlistReport, netlist: &Netlist) -> Result<Text, NoMemory>
    ensures { IfOk result (λ text. stage.netlist_text what netlist.now (Ok text)) }
{
    match what {
        NetlistReport::Loops => write_loops(alloc, netlist),
        NetlistReport::Reset => write_reset(alloc, netlist),
    }
}
