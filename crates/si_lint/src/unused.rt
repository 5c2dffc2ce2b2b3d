//! The signals that no arc switches.

ghost use Rattle.std.specs.Prelude.{◌≡◌, ℕ, ◌<◌, ◌↔◌, IfOk, All, true};
ghost use Rattle.si_base.specs.Bits.{bit};
ghost use Rattle.si_base.specs.Limits.{code_width};
ghost use Rattle.si_carried.specs.Lint.{IsUnused};
ghost use Rattle.si_told.specs.All.{AreAll, number_place};
ghost use Rattle.si_lint.specs.Loops.Search.{IsSwitched};

use si_base::graph::Edge;
use si_base::ids::{Code, NoMemory, Sig};
use si_graph::graph::Graph;
use std::alloc::Global;

/// The signals that no arc switches, in signal order. It fails only where memory runs out.
pub(crate) fn unused(alloc: Global, graph: &Graph) -> Result<Vec<Sig>, NoMemory>
    ensures { IfOk result (λ found. AreAll number_place (IsUnused graph.now) found.items) }
{
    let arcs = graph.arcs();
    let switched = switched(arcs);
    let count = graph.signals().len() as u8;
    let mut found: Vec<Sig> = Vec::new(alloc);
    for k in 0..count {
        if !switched.get(Sig(k)) {
            found.push(Sig(k))?;
        }
    }
    Ok(found)
}

/// The signals that some arc switches, as the bits of a code.
fn switched(arcs: &[Edge]) -> Code
    requires { All (λ a. a.event.sig < code_width) arcs.now }
    ensures { (z : ℕ) → (bit result z ≡ true) ↔ IsSwitched arcs.now z }
{
    let mut switched = Code(0);
    for arc in arcs {
        switched = switched.set(arc.event.sig, true);
    }
    switched
}
