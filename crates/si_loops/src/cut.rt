//! Arcs that are kept and arcs that are cut, so that no loop is left.

ghost use Rattle.std.specs.Prelude.{[], IfOk, All};
ghost use Rattle.si_loops.specs.Arcs.{Splits};
ghost use Rattle.si_loops.specs.Loops.Paths.{IsNarrow};

use crate::arcs::Arc;
use crate::paths::Paths;
use si_base::ids::NoMemory;
use std::alloc::Global;

/// Arcs that are kept, and those that are cut, each in order.
#[derive(Drop)]
pub struct Split {
    pub kept: Vec<Arc>,
    pub cut: Vec<Arc>,
}

/// Goes over the arcs in order, and cuts each that closes a loop with those kept before it. It fails
/// only where memory runs out.
pub fn cut_loops(alloc: Global, arcs: &[Arc]) -> Result<Split, NoMemory>
    requires { All IsNarrow arcs.now }
    ensures { IfOk result (λ split. Splits [] arcs.now split.kept.items split.cut.items) }
{
    let mut kept = Paths::none(alloc)?;
    let mut cut = Vec::new(alloc);
    for arc in arcs {
        if kept.lead(arc.to, arc.from) {
            cut.push(*arc)?;
        } else {
            kept.add(*arc)?;
        }
    }
    Ok(Split {
        kept: kept.into_arcs(),
        cut,
    })
}
