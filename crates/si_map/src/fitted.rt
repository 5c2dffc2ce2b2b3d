//! The signals of a graph that some cell fits.

ghost use Rattle.std.specs.Prelude.{◌≡◌, IfSome, IfNone};
ghost use Rattle.si_cell.specs.Library.{Library as LibraryValue};
ghost use Rattle.si_checks.specs.Loops.Lent.{coded_of};
ghost use Rattle.si_circuit.specs.Cells.{AllFit, IsFirstUnfit};
ghost use Rattle.si_bounds.specs.Loops.Fitted.{AreFitted};

use crate::unfit::fits;
use si_base::ids::{Code, Sig};
use si_checks::distinct::Distinct;
use si_match::functions::LibraryFunctions;

/// The signals that the circuit drives and that some cell fits.
pub(crate) fn fitted_signals(graph: Distinct<'_>, library: &LibraryFunctions<'_>) -> Code
    ensures { AreFitted (coded_of graph.entry) library.now result }
{
    let known = graph.proper().coded().graph();
    let mut fitted = Code(0);
    for i in 0..known.signals().len() {
        let z = Sig(i as u8);
        if !known.is_driven(z) {
            continue;
        }
        fitted = fitted.set(z, fits(graph, library, z));
    }
    fitted
}

/// The first signal that the circuit drives and that no cell fits, where it is known which fit.
pub(crate) fn first_unfit(graph: Distinct<'_>, fitted: Code) -> Option<Sig>
    ensures some { IfSome result (λ z. (library : LibraryValue)
        → AreFitted (coded_of graph.entry) library fitted
        → IsFirstUnfit (coded_of graph.entry) library z) }
    ensures none { IfNone result ((library : LibraryValue)
        → AreFitted (coded_of graph.entry) library fitted
        → AllFit (coded_of graph.entry) library) }
{
    let known = graph.proper().coded().graph();
    for i in 0..known.signals().len() {
        let z = Sig(i as u8);
        if known.is_driven(z) && !fitted.get(z) {
            return Some(z);
        }
    }
    None
}
