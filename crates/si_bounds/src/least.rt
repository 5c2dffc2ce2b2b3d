//! What signals that never wait for a new one add together, and the most pins of a cell.

ghost use Rattle.std.specs.Prelude.{◌≡◌, ◌≤◌, ◌+◌, All, length};
ghost use Rattle.si_base.specs.Limits.{code_width};
ghost use Rattle.si_cell.specs.Limits.{max_pins};
ghost use Rattle.si_bounds.specs.Loops.Least.{HaveFewPins, sum_outside};

use si_base::ids::{Code, Sig};
use si_cell::library::Library;

/// The most pins of a cell.
pub(crate) fn most_pins(library: &Library) -> u64
    ensures few { HaveFewPins library.now result }
    ensures small { result ≤ max_pins }
{
    let mut most = 0;
    for cell in library.cells() {
        let pins = cell.pins.len() as u64;
        if most < pins {
            most = pins;
        }
    }
    most
}

/// What the signals outside of the set add together.
pub(crate) fn sum_without(least: &[u64], waiting: Code) -> u64
    requires few { length least.now ≤ code_width }
    requires small { All (λ w. w ≤ 2 + code_width) least.now }
    ensures { result ≡ sum_outside waiting 0 least.now }
{
    let mut sum = 0;
    for i in 0..least.len() {
        if waiting.get(Sig(i as u8)) {
            continue;
        }
        sum += least[i];
    }
    sum
}
