//! The text of the graph after its insertions.

ghost use Rattle.std.specs.Prelude.{◌≡◌, IfOk};
ghost use Rattle.si_circuit.specs.Circuits.{AreStateNames};
ghost use Rattle.si_inserted.specs.Current.{current_sg};
ghost use Rattle.si_inserted.specs.Laws.{CanBeGiven};
ghost use Rattle.si_sg.specs.CanonicalText.{sg_text};
ghost use Rattle.si_sg.specs.GivenGraph.{IsGivenBy};

use crate::graph::internal_graph;
use crate::names::current_names;
use si_base::ids::NoMemory;
use si_base::names::Names;
use si_base::text::{Name, Text};
use si_insert::lineage::Lineage;
use si_sg::read::Sg;
use si_sg::write::write_sg;
use std::alloc::Global;

/// The canonical text of the lineage's current graph, with this model, where the given states have
/// these names. Inserted signals are internal ones, behind those of the given graph; each state has
/// the word that netlists tell it by, with `_` in place of `@`: so `s6@01` is `s6_01`.
///
/// It reads back as that graph, where it has no more arcs than are read. It fails only where memory
/// runs out.
pub fn current_text(
    alloc: Global,
    lineage: &Lineage,
    model: &Name,
    states: &Names,
) -> Result<Text, NoMemory>
    requires { AreStateNames lineage.now.given.graph states.now }
    ensures text { IfOk result
        (λ text. text ≡ sg_text (current_sg model.now states.now lineage.now)) }
    ensures back { CanBeGiven model.now states.now lineage.now → IfOk result
        (λ text. IsGivenBy text (current_sg model.now states.now lineage.now)) }
{
    let sg = Sg {
        model: Name::copy_of(alloc, model.bytes())?,
        graph: internal_graph(alloc, lineage.current().coded().graph())?,
        states: current_names(alloc, lineage, states)?,
    };
    write_sg(alloc, &sg)
}
