//! The cubes that are needed.

ghost use Rattle.std.specs.Prelude.{◌≡◌, ℕ, ◌-◌, ◌<◌, ◌≤◌, ◌||◌, not, nat_le, map, zip, count_by};
ghost use Rattle.std.specs.Prelude.{length, slice_index, IfOk, IsTrue, if◌then◌else◌};
ghost use Rattle.std.specs.List.{list_all};
ghost use Rattle.si_cube.specs.Needed as needed;
ghost use Rattle.si_cube.specs.Rule as rule;

use crate::cube::Cube;
use si_base::ids::{Code, NoMemory};
use std::alloc::Global;

/// The cubes without those, in order, whose required codes the others that are left cover.
pub fn needed_cubes(alloc: Global, required: &[Code], cubes: &[Cube]) -> Result<Vec<Cube>, NoMemory>
    ensures { IfOk result
        (λ kept. kept.items ≡ needed.needed (rule.is_needless_cube required.now) cubes.now) }
{
    let mut counts = counts_of(alloc, required, cubes)?;
    let mut kept = Vec::new(alloc);
    for cube in cubes {
        if is_needless(cube, required, counts.as_slice()) {
            uncount(cube, required, &mut counts);
            continue;
        }
        kept.push(copy_of(cube))?;
    }
    Ok(kept)
}

/// For each required code the number of cubes that cover it.
fn counts_of(alloc: Global, required: &[Code], cubes: &[Cube]) -> Result<Vec<usize>, NoMemory>
    ensures { IfOk result (λ counts. counts.items
        ≡ map (λ code. count_by (λ cube. rule.covers cube code) cubes.now) required.now) }
{
    let mut counts = Vec::new(alloc);
    for code in required {
        counts.push(cubes.iter().filter(|cube| cube.covers(*code)).count())?;
    }
    Ok(counts)
}

/// Whether two cubes or more cover each required code that this one covers.
fn is_needless(cube: &Cube, required: &[Code], counts: &[usize]) -> bool
    ensures { result ≡ list_all (λ p. not (rule.covers cube.now p.0) || nat_le 2 p.1)
        (zip required.now counts.now) }
{
    required
        .iter()
        .zip(counts)
        .all(|(code, count)| !cube.covers(*code) || *count >= 2)
}

/// Takes the cube out of the numbers.
fn uncount(cube: &Cube, required: &[Code], counts: &mut Vec<usize>)
    requires same_length { length counts.old.items ≡ length required.now }
    requires counted { (k : ℕ) → k < length required.now
        → IsTrue (rule.covers cube.now (slice_index required.now k))
        → 1 ≤ slice_index counts.old.items k }
    ensures same_length { length counts.new.items ≡ length required.now }
    ensures fewer { (k : ℕ) → k < length required.now → slice_index counts.new.items k
        ≡ slice_index counts.old.items k
        - (if rule.covers cube.now (slice_index required.now k) then 1 else 0) }
{
    for k in 0..required.len() {
        if cube.covers(required[k]) {
            counts[k] -= 1;
        }
    }
}

/// An equal cube.
fn copy_of(cube: &Cube) -> Cube
    ensures { result ≡ cube.now }
{
    Cube {
        care: cube.care,
        value: cube.value,
    }
}
