//! The first instance that fits a signal.

ghost use Rattle.std.specs.Prelude.{◌≡◌, ℕ, ◌<◌, All, [], length};
ghost use Rattle.si_base.specs.Codes.{IsCoded};
ghost use Rattle.si_base.specs.Graph.{IsNonInput};
ghost use Rattle.si_checks.specs.Loops.Lent.{coded_of};
ghost use Rattle.si_cell.specs.Library.{cell_at};
ghost use Rattle.si_match.specs.Fit.{first_fit};
ghost use Rattle.si_match.specs.Triggers.{AreMissing};

use crate::search::complete;
use crate::triggers::{Triggers, triggers_of};
use arrayvec::ArrayVec;
use si_base::ids::Sig;
use si_cell::cell::Instance;
use si_cell::library::Library;
use si_checks::distinct::Distinct;
use si_graph::coded::Coded;

/// The first instance of the library that fits `z`: at every state its value, where its cell's own
/// output has the value of `z`, is the next value of `z`. A signal may stand at several pins, and
/// may be `z` itself; where the library's pins are plain, no complement does. Instances are ordered
/// by cell in library order, then by their literals in literal order, the first pin first. `None`
/// exactly where none fits.
///
/// Each gate of `z` has to read its trigger signals. The search ends below literals at the first
/// pins that leave too few pins for them, or where a state beside an arc of a trigger, or one that
/// refuted an earlier instance, refutes every instance with these literals.
pub fn fit(graph: Distinct<'_>, library: &Library, z: Sig) -> Option<Instance>
    requires { IsNonInput (coded_of graph).graph.signals z }
    ensures { result ≡ first_fit (coded_of graph.entry) library.now z }
{
    let coded = graph.proper().coded();
    let triggers = triggers_of(coded, z);
    first_fitting(coded, library, z, triggers)
}

/// The first instance that fits `z`, where each cell needs the signals of that set.
pub(crate) fn first_fitting(
    coded: &Coded,
    library: &Library,
    z: Sig,
    needed: Triggers,
) -> Option<Instance>
    requires coded { IsCoded coded.now }
    requires signal { z < length coded.now.graph.signals }
    requires needed { (k : ℕ) → k < length library.now.cells
        → AreMissing coded.now z (cell_at library.now k) [] needed.signals }
    requires states { All (λ s. s < coded.now.graph.states) needed.witnesses.items }
    ensures { result ≡ first_fit coded.now library.now z }
{
    let allowed = library.pins();
    let Triggers {
        signals,
        mut witnesses,
    } = needed;
    for k in 0..library.cells().len() {
        let k = k as u8;
        let cell = library.cell(k);
        let mut literals = ArrayVec::new();
        let pins = cell.pins.len();
        if complete(
            coded,
            allowed,
            z,
            cell,
            &mut witnesses,
            signals,
            &mut literals,
            pins,
        ) {
            return Some(Instance { cell: k, literals });
        }
    }
    None
}
