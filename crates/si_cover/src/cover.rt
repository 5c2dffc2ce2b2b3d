//! The sums of a signal's gate: prime and irredundant covers.

ghost use Rattle.std.specs.Prelude.{◌≡◌, IfOk};
ghost use Rattle.si_base.specs.Graph.{IsNonInput};
ghost use Rattle.si_checks.specs.Loops.Lent.{coded_of};
ghost use Rattle.si_cover.specs.declared.kind.SumKind.TheVariants.{Next, Set, Reset};
ghost use Rattle.si_cube.specs.Covers.{IsPrimeCover};
ghost use Rattle.si_cover.specs.Demands.{chosen_sum, demand};

use crate::demand::{Codes, codes_of};
use crate::kind::SumKind;
use si_base::ids::{NoMemory, Sig};
use si_checks::distinct::Distinct;
use si_cube::codes::{in_order, sum_of_codes};
use si_cube::sum::Sum;
use std::alloc::Global;

/// The sums of a generalised C-element.
#[derive(Drop)]
pub struct SetReset {
    pub set: Sum,
    pub reset: Sum,
}

/// The sum of a signal's next value: a prime and irredundant cover. It fails only where memory
/// runs out.
pub fn next_sum(alloc: Global, graph: Distinct<'_>, z: Sig) -> Result<Sum, NoMemory>
    requires { IsNonInput (coded_of graph).graph.signals z }
    ensures chosen { IfOk result (λ sum. sum ≡ chosen_sum Next (coded_of graph.entry) z) }
    ensures prime_cover { IfOk result (IsPrimeCover (demand Next (coded_of graph.entry) z)) }
{
    chosen(alloc, graph, SumKind::Next, z)
}

/// The sums that set and reset a signal: prime and irredundant covers. It fails only where memory
/// runs out.
pub fn set_reset(alloc: Global, graph: Distinct<'_>, z: Sig) -> Result<SetReset, NoMemory>
    requires { IsNonInput (coded_of graph).graph.signals z }
    ensures set { IfOk result (λ sums. sums.set ≡ chosen_sum Set (coded_of graph.entry) z) }
    ensures set_prime_cover { IfOk result
        (λ sums. IsPrimeCover (demand Set (coded_of graph.entry) z) sums.set) }
    ensures reset { IfOk result (λ sums. sums.reset ≡ chosen_sum Reset (coded_of graph.entry) z) }
    ensures reset_prime_cover { IfOk result
        (λ sums. IsPrimeCover (demand Reset (coded_of graph.entry) z) sums.reset) }
{
    let set = chosen(alloc, graph, SumKind::Set, z)?;
    let reset = chosen(alloc, graph, SumKind::Reset, z)?;
    Ok(SetReset { set, reset })
}

/// The chosen sum of that kind.
fn chosen(alloc: Global, graph: Distinct<'_>, kind: SumKind, z: Sig) -> Result<Sum, NoMemory>
    requires { IsNonInput (coded_of graph).graph.signals z }
    ensures chosen { IfOk result (λ sum. sum ≡ chosen_sum kind (coded_of graph.entry) z) }
    ensures prime_cover { IfOk result (IsPrimeCover (demand kind (coded_of graph.entry) z)) }
{
    let coded = graph.proper().coded();
    let signals = coded.graph().signals().len();
    let Codes {
        required,
        forbidden,
    } = codes_of(alloc, coded, kind, z)?;
    let forbidden = in_order(forbidden);
    sum_of_codes(alloc, signals, required.as_slice(), forbidden.as_slice())
}
