//! The weight of a graph, as far as it is below a bar.

ghost use Rattle.std.specs.Prelude.{◌≡◌, ◌<◌, ◌≤◌, ◌+◌, IfOk, IfSome, IfNone, is_some};
ghost use Rattle.si_base.specs.Graph.{IsNonInput};
ghost use Rattle.si_base.specs.Limits.{code_width};
ghost use Rattle.si_cell.specs.Library.{Library as LibraryValue};
ghost use Rattle.si_checks.specs.Loops.Lent.{coded_of};
ghost use Rattle.si_match.specs.Fit.{first_fit};
ghost use Rattle.si_match.specs.Loops.Known.{AreKnown};
ghost use Rattle.si_match.specs.Weight.{added_weight, weight_of};
ghost use Rattle.si_bounds.specs.Loops.Fitted.{AreFitted};

use crate::unfit::added_below;
use si_base::ids::{Code, NoMemory, Sig};
use si_checks::distinct::Distinct;
use si_match::functions::LibraryFunctions;
use si_match::known::KnownFits;
use si_match::weight::weight_unfit;
use std::alloc::Global;

/// The weight where it is below the bar.
pub(crate) fn below(weight: u64, bar: u64) -> Option<u64>
    ensures some { IfSome result (λ w. (w ≡ weight) × (weight < bar)) }
    ensures none { IfNone result (bar ≤ weight) }
{
    if weight < bar { Some(weight) } else { None }
}

/// The weight of the graph for the library where it is below the bar, else None: signal after
/// signal, until the sum isn't below the bar any more, so that no fit is tried in vain. Signals of
/// which it is known that they fit are passed over. It fails only where memory runs out.
pub(crate) fn weight_below(
    alloc: Global,
    graph: Distinct<'_>,
    library: &LibraryFunctions<'_>,
    known: &KnownFits,
    bar: u64,
) -> Result<Option<u64>, NoMemory>
    requires known { AreKnown (coded_of graph) library.now known.now }
    requires read { known.now.read < code_width }
    ensures some { IfOk result (λ o. IfSome o
        (λ w. (w ≡ weight_of (coded_of graph.entry) library.now) × (w < bar))) }
    ensures none { IfOk result
        (λ o. IfNone o (bar ≤ weight_of (coded_of graph.entry) library.now)) }
{
    let coded = graph.proper().coded();
    let signals = coded.graph().signals();
    let mut weight = 0;
    for i in 0..signals.len() {
        if !signals[i].kind.is_driven() {
            continue;
        }
        let z = Sig(i as u8);
        let Some(added) = added_below(alloc, coded, library, known, z, bar - weight)? else {
            return Ok(None);
        };
        weight += added;
    }
    Ok(below(weight, bar))
}

/// The weight of the graph where it is known which signals fit. It fails only where memory runs out.
pub(crate) fn weight_without(
    alloc: Global,
    graph: Distinct<'_>,
    fitted: Code,
) -> Result<u64, NoMemory>
    ensures { IfOk result (λ weight. (library : LibraryValue)
        → AreFitted (coded_of graph.entry) library fitted
        → weight ≡ weight_of (coded_of graph.entry) library) }
{
    let signals = graph.proper().coded().graph().signals();
    let mut weight = 0;
    for i in 0..signals.len() {
        if !signals[i].kind.is_driven() {
            continue;
        }
        let z = Sig(i as u8);
        weight += added_by(alloc, graph, z, fitted.get(z))?;
    }
    Ok(weight)
}

/// What a non-input adds to the weight, where it is known whether a cell fits it.
fn added_by(alloc: Global, graph: Distinct<'_>, z: Sig, fits: bool) -> Result<u64, NoMemory>
    requires { IsNonInput (coded_of graph).graph.signals z }
    ensures weight { IfOk result (λ added. (library : LibraryValue)
        → fits ≡ is_some (first_fit (coded_of graph.entry) library z)
        → added ≡ added_weight (coded_of graph.entry) library z) }
    ensures few { IfOk result (λ added. added ≤ 1 + code_width) }
{
    if fits {
        return Ok(0);
    }
    let added = weight_unfit(alloc, graph, z)?;
    Ok(added)
}
