//! The weight of a graph for a library.

ghost use Rattle.std.specs.Prelude.{◌≡◌, ◌<◌, ◌≤◌, ◌+◌, IfOk};
ghost use Rattle.si_base.specs.Graph.{IsNonInput};
ghost use Rattle.si_base.specs.Limits.{code_width};
ghost use Rattle.si_checks.specs.Loops.Lent.{coded_of};
ghost use Rattle.si_match.specs.Weight.{added_weight, size_from, size_of_support, weight_of};

use crate::codes::cut;
use crate::fit::fit;
use crate::support::support;
use si_base::ids::{Code, NoMemory, Sig};
use si_cell::library::Library;
use si_checks::distinct::Distinct;
use std::alloc::Global;

/// How many of the first `count` signals are in the set.
pub fn size(signals: Code, count: usize) -> u64
    requires { count ≤ code_width }
    ensures size { result ≡ size_from count 0 signals }
    ensures few { result ≤ count }
{
    u64::from(cut(signals, Code::ones(count)).0.count_ones())
}

/// What a non-input adds to the weight: nothing where it fits a cell, else one more than the size
/// of its support.
fn weight_of_signal(
    alloc: Global,
    graph: Distinct<'_>,
    library: &Library,
    z: Sig,
) -> Result<u64, NoMemory>
    requires { IsNonInput (coded_of graph).graph.signals z }
    ensures weight { IfOk result
        (λ weight. weight ≡ added_weight (coded_of graph.entry) library.now z) }
    ensures few { IfOk result (λ weight. weight ≤ 1 + code_width) }
{
    if fit(graph, library, z).is_some() {
        return Ok(0);
    }
    weight_unfit(alloc, graph, z)
}

/// What a non-input that fits no cell adds to the weight: one more than the size of its support.
pub fn weight_unfit(alloc: Global, graph: Distinct<'_>, z: Sig) -> Result<u64, NoMemory>
    requires { IsNonInput (coded_of graph).graph.signals z }
    ensures weight { IfOk result
        (λ weight. weight ≡ 1 + size_of_support (coded_of graph.entry) z) }
    ensures few { IfOk result (λ weight. weight ≤ 1 + code_width) }
{
    let count = graph.proper().coded().graph().signals().len();
    let support = support(alloc, graph, z)?;
    Ok(1 + size(support, count))
}

/// The weight of the graph for the library: for each non-input that fits no cell, one more than the
/// size of its support. It fails only where memory runs out.
pub fn weight(alloc: Global, graph: Distinct<'_>, library: &Library) -> Result<u64, NoMemory>
    ensures { IfOk result (λ weight. weight ≡ weight_of (coded_of graph.entry) library.now) }
{
    let signals = graph.proper().coded().graph().signals();
    let mut weight = 0;
    for i in 0..signals.len() {
        if !signals[i].kind.is_driven() {
            continue;
        }
        weight += weight_of_signal(alloc, graph, library, Sig(i as u8))?;
    }
    Ok(weight)
}
