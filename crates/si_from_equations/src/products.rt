//! Products of cubes and of sums.

ghost use Rattle.std.specs.Prelude.{◌≡◌, ◌++◌, IfOk, OnOk, filter_map};
ghost use Rattle.si_from_equations.specs.Sums as spec;

use si_base::ids::{Code, NoMemory};
use si_cube::cube::Cube;
use std::alloc::Global;

/// The cube with the literals of both, or `None` where a literal of the one is the complement of
/// one of the other.
fn product(left: &Cube, right: &Cube) -> Option<Cube>
    ensures { result ≡ spec.product left.now right.now }
{
    let differ = left.value.0 ^ right.value.0;
    if differ & left.care.0 & right.care.0 != 0 {
        return None;
    }
    Some(Cube {
        care: Code(left.care.0 | right.care.0),
        value: Code(left.value.0 | right.value.0),
    })
}

/// Adds the products of the cube with each of the others, in order.
fn add_products(sum: &mut Vec<Cube>, cube: &Cube, others: &[Cube]) -> Result<(), NoMemory>
    ensures { OnOk result (sum.new.items
        ≡ sum.old.items ++ filter_map (spec.product cube.now) others.now) }
{
    for other in others {
        if let Some(both) = product(cube, other) {
            sum.push(both)?;
        }
    }
    Ok(())
}

/// The products of each cube of the one sum with each of the other, in order. It fails only where
/// memory runs out.
pub(crate) fn products(alloc: Global, left: &[Cube], right: &[Cube]) -> Result<Vec<Cube>, NoMemory>
    ensures { IfOk result (λ sum. sum.items ≡ spec.products left.now right.now) }
{
    let mut sum = Vec::new(alloc);
    for cube in left {
        add_products(&mut sum, cube, right)?;
    }
    Ok(sum)
}
