//! The lineage that fits a netlist.

ghost use Rattle.std.specs.Prelude.{IfErr, IfOk};
ghost use Rattle.si_base.specs.System.{IsFor};
ghost use Rattle.si_finder.specs.NotFound.{ShowsNotFound};
ghost use Rattle.si_found.specs.Found.{Fits};

use crate::not_found::NotFound;
use crate::step::with_all;
use crate::unbuilt::first_difference;
use si_base::text_key::TextKey;
use si_checks::proper::Proper;
use si_insert::lineage::Lineage;
use si_netlist::netlist::Netlist;
use si_reached::reached::all_reached;
use std::alloc::Global;

/// The lineage of the graph that fits the netlist: its gates tell where each hidden signal
/// switches. Insertions that the netlist spells are not looked at.
///
/// The key hinders that texts are written whose states fill one place of a table; it changes no
/// answer.
///
/// # Errors
///
/// The first reason that applies: that the circuit reaches too many states, or goes astray; then,
/// hidden signal after hidden signal, why it can't be inserted; then the start values, and the
/// gates. Then no lineage fits. `NoMemory` only where memory runs out.
pub fn find(
    alloc: Global,
    key: TextKey,
    graph: Proper,
    netlist: &Netlist,
) -> Result<Lineage, NotFound>
    requires { IsFor graph netlist.now }
    ensures fits { IfOk result (Fits graph netlist.now) }
    ensures none { IfErr result (ShowsNotFound graph netlist.now) }
{
    let reached = all_reached(alloc, key, graph.coded().graph(), netlist)?;
    let lineage = with_all(alloc, key, graph, netlist, reached.as_slice())?;
    match first_difference(&lineage, netlist) {
        None => Ok(lineage),
        Some(why) => Err(NotFound::Unbuilt { lineage, why }),
    }
}
