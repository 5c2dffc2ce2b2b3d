//! The sum of products of an expression, multiplied out in the order in which it is written.

ghost use Rattle.std.specs.Prelude.{◌≡◌, ◌≤◌, ℕ, IfOk, List, OnOk, length, reverse};
ghost use Rattle.si_base.specs.Limits.{max_signals};
ghost use Rattle.si_equations_reader.specs.Steps as spec;
ghost use Rattle.si_equations_reader.specs.Steps.{tree_of};
ghost use Rattle.si_from_equations.specs.Sums as spec_sums;

use crate::two_sums::TwoSums;
use si_base::ids::{NoMemory, Sig};
use si_base::names::Names;
use si_cube::sum::Sum;
use si_equations_reader::names::bare;
use si_equations_reader::step::Step;
use si_words::lists::place_of;
use std::alloc::Global;

/// The sum of products of the expression with these steps, over the signals with these names, in
/// their order: `None` where multiplying out comes to too much. It fails only where memory runs
/// out.
///
/// Of each part the sum is kept, and that of its complement, where they don't come to too much: so
/// a complement costs nothing. A sum that goes missing isn't followed any further.
pub fn sum_of(alloc: Global, names: &Names, steps: &[Step<'_>]) -> Result<Option<Sum>, NoMemory>
    requires { length names.now ≤ max_signals }
    ensures { IfOk result (λ sum. sum ≡ spec_sums.sum_of names.now (tree_of steps.now)) }
{
    let mut results = Vec::new(alloc);
    for step in steps {
        take_step(alloc, names, &mut results, step)?;
    }
    let last = take_last(alloc, &mut results)?;
    match last.into_plain() {
        Some(cubes) => Ok(Some(Sum::new(cubes))),
        None => Ok(None),
    }
}

/// The sums of a name.
fn sums_of_name(alloc: Global, names: &Names, name: &[u8]) -> Result<TwoSums, NoMemory>
    requires { length names.now ≤ max_signals }
    ensures { IfOk result (λ sums. sums ≡ (spec_sums.sums names.now).pin name.now) }
{
    match place_of(names, bare(name)) {
        Some(place) => TwoSums::of_signal(alloc, Sig(place as u8)),
        None => TwoSums::of_constant(alloc, false),
    }
}

/// Takes the last result; the constant 0 where there is none.
fn take_last(alloc: Global, results: &mut Vec<TwoSums>) -> Result<TwoSums, NoMemory>
    ensures last { (names : List (List ℕ)) → IfOk result (λ sums. sums ≡
        spec.last_of (spec_sums.sums names) (reverse results.old.items)) }
    ensures others { reverse results.new.items ≡ spec.before_last (reverse results.old.items) }
{
    match results.pop() {
        Some(sums) => Ok(sums),
        None => TwoSums::of_constant(alloc, false),
    }
}

/// What the results come to with one step more.
fn take_step(
    alloc: Global,
    names: &Names,
    results: &mut Vec<TwoSums>,
    step: &Step<'_>,
) -> Result<(), NoMemory>
    requires { length names.now ≤ max_signals }
    ensures { OnOk result (reverse results.new.items
        ≡ spec.after_step (spec_sums.sums names.now) (reverse results.old.items) step.now) }
{
    let sums = match *step {
        Step::Pin(name) => sums_of_name(alloc, names, name)?,
        Step::Constant(value) => TwoSums::of_constant(alloc, value)?,
        Step::Not => take_last(alloc, results)?.complemented(),
        Step::And => {
            let right = take_last(alloc, results)?;
            take_last(alloc, results)?.and(alloc, right)?
        }
        Step::Or => {
            let right = take_last(alloc, results)?;
            take_last(alloc, results)?.or(alloc, right)?
        }
    };
    results.push(sums)?;
    Ok(())
}
