//! From a proper graph to the text of its folded graph.

ghost use Rattle.std.specs.Prelude.{◌≡◌, IfOk, length};
ghost use Rattle.si_sg.specs.GivenGraph.{sg_now};
ghost use Rattle.si_reports.specs.Fold.{IsFoldText, IsFoldedGraph};

use si_base::ids::NoMemory;
use si_base::names::Names;
use si_base::text::{Name, Text};
use si_checks::proper::Proper;
use si_fold::fold::{Folded, fold};
use si_sg::build::names_at;
use si_sg::read::Sg;
use si_sg::write::write_sg;
use std::alloc::Global;

/// The canonical text of the folded graph of a graph with this model and these names of its states.
/// It fails only where memory runs out.
pub(crate) fn fold_text(
    alloc: Global,
    graph: &Proper,
    model: &Name,
    states: &Names,
) -> Result<Text, NoMemory>
    requires { length states.now ≡ graph.now.graph.states }
    ensures { IfOk result (IsFoldText model.now states.now graph.now) }
{
    let folded = folded_graph(alloc, graph, model, states)?;
    write_sg(alloc, &folded)
}

/// The folded graph with the model, where each state has the name of the least state for which it
/// stands.
fn folded_graph(alloc: Global, graph: &Proper, model: &Name, states: &Names) -> Result<Sg, NoMemory>
    requires { length states.now ≡ graph.now.graph.states }
    ensures folded { IfOk result
        (λ sg. IsFoldedGraph model.now states.now graph.now (sg_now sg)) }
    ensures named { IfOk result (λ sg. length sg.states ≡ sg.graph.states) }
{
    let Folded {
        graph: folded,
        kept,
        ..
    } = fold(alloc, graph)?;
    Ok(Sg {
        model: Name::copy_of(alloc, model.bytes())?,
        states: names_at(states, &kept)?,
        graph: folded.into_coded().into_graph(),
    })
}
