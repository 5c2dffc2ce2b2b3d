//! A graph with one state for each class of states that nothing tells apart.

ghost use Rattle.std.specs.Prelude.{◌≡◌, ◌<◌, ◌≤◌, All, IfOk, length, map};
ghost use Rattle.si_base.specs.Codes.{code};
ghost use Rattle.si_graph.specs.Loops.Renaming.{renamed};
ghost use Rattle.si_fold.specs.Folded.{AreClasses, IsFolded};

use crate::numbering::{Numbering, numbered};
use crate::refinement::refined;
use si_base::graph::Edge;
use si_base::ids::{Code, NoMemory, StateId};
use si_checks::proper::Proper;
use si_graph::coded::Coded;
use si_graph::graph::Graph;
use std::alloc::Global;

/// A graph with one state for each class of alike states of a given graph.
#[derive(Drop)]
pub struct Folded {
    pub graph: Proper,
    /// The least member of each class, in order: state `i` of the folded graph stands for it.
    pub kept: Vec<StateId>,
    /// For each state of the given graph the state of the folded graph that stands for it.
    pub class: Vec<StateId>,
}

/// The graph with one state for each class of alike states, in order of their least members, and
/// the arcs between their members: its start is the class of the start.
///
/// Two states are alike where no walk tells them apart: they have equal codes, enable the same
/// events, and lead by each of these to states that are alike. The work grows as the number of arcs
/// times the logarithm of the number of states.
///
/// # Errors
///
/// `NoMemory` only where memory runs out.
pub fn fold(alloc: Global, graph: &Proper) -> Result<Folded, NoMemory>
    ensures { IfOk result
        (λ folded. IsFolded graph.now folded.kept.items folded.class.items folded.graph) }
{
    let coded = graph.coded();
    let states = refined(alloc, coded.graph())?;
    let numbering = numbered(alloc, coded, &states)?;
    let folded = graph_of_classes(alloc, coded, &numbering.kept, &numbering.class)?;
    let Numbering { kept, class } = numbering;
    Ok(Folded {
        graph: Proper::known(folded),
        kept,
        class,
    })
}

/// The graph of the classes, of which these are the least members, with the arcs between them.
fn graph_of_classes(
    alloc: Global,
    coded: &Coded,
    kept: &[StateId],
    class: &[StateId],
) -> Result<Coded, NoMemory>
    requires classes { AreClasses coded.now kept.now class.now }
    requires few { length kept.now ≤ coded.now.graph.states }
    ensures { IfOk result (IsFolded coded.now kept.now class.now) }
{
    let given = coded.graph();
    let signals = given.copied_signals(alloc)?;
    let arcs = arcs_between(alloc, given, class)?;
    let start = class[given.start().0 as usize];
    let graph = Graph::make(alloc, signals, kept.len() as u32, arcs, start)?;
    let codes = codes_of(alloc, coded, kept)?;
    Coded::known(alloc, graph, codes)
}

/// The codes of the states.
fn codes_of(alloc: Global, coded: &Coded, kept: &[StateId]) -> Result<Vec<Code>, NoMemory>
    requires { All (λ s. s < coded.now.graph.states) kept.now }
    ensures { IfOk result (λ codes. codes.items ≡ map (code coded.now) kept.now) }
{
    let mut codes = Vec::new(alloc);
    for s in kept {
        codes.push(coded.code(*s))?;
    }
    Ok(codes)
}

/// The arcs of the graph between the classes of their states.
fn arcs_between(alloc: Global, graph: &Graph, class: &[StateId]) -> Result<Vec<Edge>, NoMemory>
    requires { length class.now ≡ graph.now.states }
    ensures { IfOk result (λ arcs. arcs.items ≡ map (renamed class.now) graph.now.edges) }
{
    let mut arcs = Vec::new(alloc);
    for arc in graph.arcs() {
        arcs.push(Edge {
            from: class[arc.from.0 as usize],
            event: arc.event,
            to: class[arc.to.0 as usize],
        })?;
    }
    Ok(arcs)
}
