//! The law of folding over netlists.

ghost use Rattle.si_base.specs.System.{IsFor};
ghost use Rattle.si_fold.specs.Folded.{IsFolded};
ghost use Rattle.si_fold.specs.Laws.{BehavesAlike};

use si_checks::proper::Proper;
use si_fold::fold::Folded;
use si_netlist::netlist::Netlist;

/// Beside the graph and beside its folded graph the netlist, whose given signals and their start
/// values are the graph's, has the same behaviour: it loses no excitation, is weakly bisimilar or
/// has no silent cycle with both or with neither. The call takes no memory and answers nothing: its
/// contract is the law.
pub fn fold_law(graph: &Proper, folded: &Folded, netlist: &Netlist)
    requires folded { IsFolded graph.now folded.now.kept.items folded.now.class.items
        folded.now.graph }
    requires signals { IsFor graph.now netlist.now }
    ensures { BehavesAlike graph.now folded.now.graph netlist.now }
{
    let _graph = graph.coded().graph();
}
