//! One insertion after another, each of the next hidden signal.

ghost use Rattle.std.specs.Prelude.{◌≡◌, IfErr, IfOk, Some, length, slice_get};
ghost use Rattle.si_base.specs.Graph.{IsNonInput};
ghost use Rattle.si_base.specs.System.{IsFor};
ghost use Rattle.si_finder.specs.Loops.Next.{IsNextFor};
ghost use Rattle.si_finder.specs.Loops.Steps.{FindsNext, StopsNext};
ghost use Rattle.si_finder.specs.NotFound.{FindsAll, ShowsUninserted};
ghost use Rattle.si_insert.specs.Accepted.{IsAccepted};
ghost use Rattle.si_insert.specs.Fresh.{IsTaken};
ghost use Rattle.si_insert.specs.Insertion.{new_signal};
ghost use Rattle.si_insert.specs.Lineage.{Extends};
ghost use Rattle.si_reached.specs.Laws.{AreTold};

use crate::next::{Next, decided};
use crate::not_found::NotFound;
use crate::switch_sets::switch_sets;
use si_base::ids::NoMemory;
use si_base::text::Name;
use si_base::text_key::TextKey;
use si_checks::proper::Proper;
use si_insert::accept::Accepted;
use si_insert::lineage::Lineage;
use si_netlist::netlist::Netlist;
use si_reached::state::Reached;
use std::alloc::Global;

/// What becomes of the hidden signal that is next after those of the lineage. It fails only where
/// memory runs out.
fn next_of(
    alloc: Global,
    key: TextKey,
    lineage: &Lineage,
    netlist: &Netlist,
    reached: &[Reached],
) -> Result<Next, NoMemory>
    requires told { AreTold lineage.now.given.graph netlist.now reached.now }
    requires next { IsNonInput netlist.now.signals
        (length lineage.now.current.coded.graph.signals) }
    ensures { IfOk result (IsNextFor lineage.now.given.graph netlist.now lineage.now.current) }
{
    let sets = switch_sets(alloc, key, lineage, netlist, reached)?;
    decided(alloc, lineage.current(), &sets)
}

/// The lineage with the insertion of that name. It fails only where memory runs out.
fn extended(
    alloc: Global,
    lineage: Lineage,
    accepted: Accepted,
    name: &Name,
) -> Result<Lineage, NoMemory>
    requires accepted { IsAccepted lineage.current.coded.graph accepted }
    requires new { ¬ IsTaken lineage.current.coded.graph.signals name.now }
    ensures { IfOk result
        (Extends lineage (record { name = name.now; partition = accepted })) }
{
    let name = Name::copy_of(alloc, name.bytes())?;
    match lineage.insert(alloc, accepted, name) {
        Ok(next) => Ok(next),
        Err((_lineage, _accepted, NoMemory)) => Err(NoMemory),
    }
}

/// The lineage with the insertion of the next hidden signal, which has that name, where its gate
/// says that it switches.
fn with_next(
    alloc: Global,
    key: TextKey,
    lineage: Lineage,
    netlist: &Netlist,
    reached: &[Reached],
    name: &Name,
) -> Result<Lineage, NotFound>
    requires told { AreTold lineage.given.graph netlist.now reached.now }
    requires next { slice_get netlist.now.signals (length lineage.current.coded.graph.signals)
        ≡ Some (new_signal name.now) }
    requires new { ¬ IsTaken lineage.current.coded.graph.signals name.now }
    ensures found { IfOk result (FindsNext netlist.now lineage) }
    ensures stops { IfErr result (StopsNext netlist.now lineage) }
{
    let next = next_of(alloc, key, &lineage, netlist, reached)?;
    match next {
        Next::Found(accepted) => Ok(extended(alloc, lineage, accepted, name)?),
        Next::Stopped(why) => Err(NotFound::Hindered { lineage, why }),
    }
}

/// The lineage of the graph with the insertions of all hidden signals of the netlist, whose circuit
/// reaches just these states; or the first hidden signal of which none is found, with the first
/// reason. `NoMemory` only where memory runs out.
pub(crate) fn with_all(
    alloc: Global,
    key: TextKey,
    graph: Proper,
    netlist: &Netlist,
    reached: &[Reached],
) -> Result<Lineage, NotFound>
    requires lists { IsFor graph netlist.now }
    requires told { AreTold graph.graph netlist.now reached.now }
    ensures found { IfOk result (FindsAll graph netlist.now) }
    ensures stops { IfErr result (ShowsUninserted graph netlist.now) }
{
    let signals = netlist.signals();
    let given = graph.coded().graph().signals().len();
    let Ok(begun) = Lineage::start(alloc, graph) else {
        return Err(NotFound::NoMemory);
    };
    let mut lineage = begun;
    for z in given..signals.len() {
        lineage = with_next(alloc, key, lineage, netlist, reached, &signals[z].name)?;
    }
    Ok(lineage)
}
