//! The sum that is chosen for codes, wherever they come from.

ghost use Rattle.std.specs.Prelude.{◌≡◌, ◌<◌, ◌≤◌, ◌^◌, All, IfOk};
ghost use Rattle.std.specs.List.Sorted.{IsNonDecreasing, IsStrictlySortedBy};
ghost use Rattle.std.specs.Ordering.{nat_cmp};
ghost use Rattle.si_base.specs.Limits.{code_width};
ghost use Rattle.si_base.specs.WellFormed.{IsSum};
ghost use Rattle.si_cube.specs.Covers.{IsMeetable, IsPrimeCover};
ghost use Rattle.si_cube.specs.Order.{HaveSame};
ghost use Rattle.si_cube.specs.Rule.{chosen};

use crate::growth::grown_cubes;
use crate::needed::needed_cubes;
use crate::sum::Sum;
use si_base::ids::{Code, NoMemory};
use std::alloc::Global;

/// The chosen sum: a prime and irredundant cover, which covers each of the required codes and none
/// of the forbidden ones.
///
/// The codes are of the first `signals` signals. The forbidden ones are handed in in ascending
/// order, the required ones in the order in which their cubes are grown. It fails only where
/// memory runs out.
pub fn sum_of_codes(
    alloc: Global,
    signals: usize,
    required: &[Code],
    forbidden: &[Code],
) -> Result<Sum, NoMemory>
    requires few { signals ≤ code_width }
    requires in_order { IsNonDecreasing forbidden.now }
    requires required_fit { All (λ k. k < 2 ^ signals) required.now }
    requires meetable { IsMeetable (record {
      required = required.now;
      forbidden = forbidden.now;
    }) }
    requires forbidden_fit { All (λ k. k < 2 ^ signals) forbidden.now }
    ensures chosen { IfOk result (λ sum. sum ≡ chosen signals (record {
      required = required.now;
      forbidden = forbidden.now;
    })) }
    ensures prime_cover { IfOk result (IsPrimeCover (record {
      required = required.now;
      forbidden = forbidden.now;
    })) }
    ensures well_formed { IfOk result (IsSum signals) }
{
    let cubes = grown_cubes(alloc, signals, required, forbidden)?;
    let kept = needed_cubes(alloc, required, cubes.as_slice())?;
    Ok(Sum::new(kept))
}

/// The codes in ascending order, each once.
pub fn in_order(mut codes: Vec<Code>) -> Vec<Code>
    ensures in_order { IsNonDecreasing result.items }
    ensures once { IsStrictlySortedBy nat_cmp result.items }
    ensures same { HaveSame result.items codes.items }
{
    codes.sort_unstable();
    codes.dedup();
    codes
}
