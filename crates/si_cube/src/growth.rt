//! Cubes grown from full cubes, by dropping literals.

ghost use Rattle.std.specs.Prelude.{◌≡◌, ◌<◌, ◌≤◌, ◌^◌, [], All, Contains, IfOk};
ghost use Rattle.std.specs.List.Sorted.{IsNonDecreasing};
ghost use Rattle.si_base.specs.Limits.{code_width};
ghost use Rattle.si_base.specs.Netlist.{sum_value};
ghost use Rattle.si_cube.specs.Covers.{IsMeetable};
ghost use Rattle.si_cube.specs.Rule as rule;

use crate::cube::Cube;
use crate::order::differing_last;
use si_base::ids::{Code, NoMemory, Sig};
use std::alloc::Global;

/// For each of the required codes that no cube so far covers, in order, its grown cube. The
/// forbidden codes are handed in in ascending order.
pub fn grown_cubes(
    alloc: Global,
    signals: usize,
    required: &[Code],
    forbidden: &[Code],
) -> Result<Vec<Cube>, NoMemory>
    requires few { signals ≤ code_width }
    requires in_order { IsNonDecreasing forbidden.now }
    requires required_fit { All (λ k. k < 2 ^ signals) required.now }
    requires meetable { IsMeetable (record {
      required = required.now;
      forbidden = forbidden.now;
    }) }
    requires forbidden_fit { All (λ k. k < 2 ^ signals) forbidden.now }
    ensures { IfOk result
        (λ cubes. cubes.items ≡ rule.grown_cubes signals forbidden.now [] required.now) }
{
    let mut cubes = Vec::new(alloc);
    for code in required {
        if is_covered(cubes.as_slice(), *code) {
            continue;
        }
        cubes.push(grown(signals, *code, forbidden))?;
    }
    Ok(cubes)
}

/// The full cube of the code, less each literal in signal order without which the cube covers no
/// forbidden code.
///
/// When a signal's turn comes, all literals behind it are there, and the cube covers no forbidden
/// code. So of the forbidden codes only those matter that differ from the code at that signal and
/// at none behind it. They lie side by side, and each code matters at one signal.
fn grown(signals: usize, code: Code, forbidden: &[Code]) -> Cube
    requires few { signals ≤ code_width }
    requires in_order { IsNonDecreasing forbidden.now }
    requires fits { code < 2 ^ signals }
    requires not_forbidden { Contains forbidden.now code → ⊥ }
    requires forbidden_fit { All (λ k. k < 2 ^ signals) forbidden.now }
    ensures { result ≡ rule.grown signals forbidden.now code }
{
    let mut cube = Cube::of_code(code, signals);
    for s in 0..signals {
        let smaller = cube.drop_literal(Sig(s as u8));
        if !covers_any(&smaller, differing_last(forbidden, code, s)) {
            cube = smaller;
        }
    }
    cube
}

/// Whether the cube covers one of the codes.
fn covers_any(cube: &Cube, codes: &[Code]) -> bool
    ensures { result ≡ rule.covers_any codes.now cube.now }
{
    codes.iter().any(|code| cube.covers(*code))
}

/// Whether one of the cubes covers the code.
fn is_covered(cubes: &[Cube], code: Code) -> bool
    ensures { result ≡ sum_value code cubes.now }
{
    cubes.iter().any(|cube| cube.covers(code))
}
