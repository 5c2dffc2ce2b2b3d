//! Cubes over the signals of the whole.

ghost use Rattle.std.specs.Prelude.{◌≡◌, ◌≤◌, IfOk, map, slice_index};
ghost use Rattle.si_base.specs.Limits.{max_signals};
ghost use Rattle.si_joins.specs.Gates as gates;

use crate::places::place_in;
use si_base::ids::{Code, Literal, NoMemory, Sig};
use si_base::limits::CODE_WIDTH;
use si_cube::cube::Cube;
use si_cube::sum::Sum;
use std::alloc::Global;

/// How the literal of the cube that stands at signal k of the whole has its signal, if there is
/// one.
fn literal_at(to: &[usize], cube: &Cube, k: usize) -> Option<bool>
    ensures { result ≡ gates.literal_at to.now cube.now k }
{
    for z in 0..CODE_WIDTH {
        let sig = Sig(z as u8);
        if cube.care.get(sig) && place_in(to, z) == k {
            return Some(cube.value.get(sig));
        }
    }
    None
}

/// The literals of the cube over n signals of the whole, one signal after another.
fn renamed_cube(to: &[usize], n: usize, cube: &Cube) -> Cube
    requires { n ≤ max_signals }
    ensures { result ≡ gates.renamed_cube to.now n cube.now }
{
    let mut care = Code(0);
    let mut value = Code(0);
    for k in 0..n {
        if let Some(plain) = literal_at(to, cube, k) {
            care = care.set(Sig(k as u8), true);
            value = value.set(Sig(k as u8), plain);
        }
    }
    Cube { care, value }
}

/// The sum over n signals of the whole.
pub(crate) fn renamed_sum(alloc: Global, to: &[usize], n: usize, sum: &Sum) -> Result<Sum, NoMemory>
    requires { n ≤ max_signals }
    ensures { IfOk result (λ new. new ≡ gates.renamed_sum to.now n sum.now) }
{
    let mut cubes = Vec::new(alloc);
    for cube in sum.cubes() {
        cubes.push(renamed_cube(to, n, cube))?;
    }
    Ok(Sum::new(cubes))
}

/// The literals of a cell over n signals of the whole, in the order of its pins.
pub(crate) fn renamed_pins(
    alloc: Global,
    to: &[usize],
    n: usize,
    literals: &[Literal],
) -> Result<Vec<Literal>, NoMemory>
    requires { n ≤ max_signals }
    ensures { IfOk result (λ new. new.items ≡ gates.renamed_pins to.now n literals.now) }
{
    let mut pins = Vec::new(alloc);
    for literal in literals {
        let place = place_in(to, literal.sig.0 as usize);
        if place < n {
            pins.push(Literal {
                sig: Sig(place as u8),
                plain: literal.plain,
            })?;
        }
    }
    Ok(pins)
}
