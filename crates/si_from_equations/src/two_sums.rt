//! The sums of an expression and of its complement.

ghost use Rattle.std.specs.Prelude.{◌≡◌, ◌<◌, IfOk, option_map, vec_items};
ghost use Rattle.si_base.specs.Limits.{code_width};
ghost use Rattle.si_from_equations.specs.Sums as spec;

use crate::limits::{MAX_CUBES, MAX_PAIRS};
use crate::products::products;
use si_base::ids::{Code, NoMemory, Sig};
use si_cube::cube::Cube;
use std::alloc::Global;
use std::marker::Model;

/// The cubes of the sum of an expression, and of that of its complement. One is missing where
/// multiplying out comes to too much.
#[derive(Drop)]
pub(crate) struct TwoSums {
    plain: Option<Vec<Cube>>,
    complement: Option<Vec<Cube>>,
}

impl Model for TwoSums {
    ghost use Rattle.std.specs.Prelude.{option_map, vec_items};
    ghost use Rattle.si_from_equations.specs.Sums as spec;

    ghost Value = { spec.TwoSums };

    ghost view = { λ s. record {
      plain = option_map vec_items s.plain;
      complement = option_map vec_items s.complement;
    } };
}

/// The sum with the one cube that has no literal.
fn one_sum(alloc: Global) -> Result<Vec<Cube>, NoMemory>
    ensures { IfOk result (λ sum. sum.items ≡ spec.one_sum) }
{
    let mut sum = Vec::new(alloc);
    sum.push(Cube::of_code(Code(0), 0))?;
    Ok(sum)
}

/// The sum of one literal.
fn literal_sum(alloc: Global, s: Sig, plain: bool) -> Result<Vec<Cube>, NoMemory>
    requires { s < code_width }
    ensures { IfOk result (λ sum. sum.items ≡ spec.literal_sum s plain) }
{
    let care = 1 << s.0;
    let value = if plain { care } else { 0 };
    let mut sum = Vec::new(alloc);
    sum.push(Cube {
        care: Code(care),
        value: Code(value),
    })?;
    Ok(sum)
}

/// The cubes of the one sum, then those of the other. It fails only where memory runs out.
fn plus(left: Option<Vec<Cube>>, right: Option<Vec<Cube>>) -> Result<Option<Vec<Cube>>, NoMemory>
    ensures { IfOk result (λ sum. option_map vec_items sum
        ≡ spec.plus (option_map vec_items left) (option_map vec_items right)) }
{
    let (Some(mut left), Some(mut right)) = (left, right) else {
        return Ok(None);
    };
    if left.len() + right.len() > MAX_CUBES {
        return Ok(None);
    }
    left.append(&mut right)?;
    Ok(Some(left))
}

/// The products of the cubes of both sums. It fails only where memory runs out.
fn times(
    alloc: Global,
    left: Option<Vec<Cube>>,
    right: Option<Vec<Cube>>,
) -> Result<Option<Vec<Cube>>, NoMemory>
    ensures { IfOk result (λ sum. option_map vec_items sum
        ≡ spec.times (option_map vec_items left) (option_map vec_items right)) }
{
    let (Some(left), Some(right)) = (left, right) else {
        return Ok(None);
    };
    if left.len().saturating_mul(right.len()) > MAX_PAIRS {
        return Ok(None);
    }
    let sum = products(alloc, left.as_slice(), right.as_slice())?;
    Ok(Some(sum))
}

impl TwoSums {
    /// The sums of a constant. It fails only where memory runs out.
    pub(crate) fn of_constant(alloc: Global, value: bool) -> Result<TwoSums, NoMemory>
        ensures { IfOk result (λ sums. sums ≡ spec.constant_sums value) }
    {
        let zero = Some(Vec::new(alloc));
        let one = Some(one_sum(alloc)?);
        if value {
            Ok(TwoSums {
                plain: one,
                complement: zero,
            })
        } else {
            Ok(TwoSums {
                plain: zero,
                complement: one,
            })
        }
    }

    /// The sums of a signal. It fails only where memory runs out.
    pub(crate) fn of_signal(alloc: Global, s: Sig) -> Result<TwoSums, NoMemory>
        requires { s < code_width }
        ensures { IfOk result (λ sums. sums ≡ spec.signal_sums (Some s)) }
    {
        Ok(TwoSums {
            plain: Some(literal_sum(alloc, s, true)?),
            complement: Some(literal_sum(alloc, s, false)?),
        })
    }

    /// The sums of the complement.
    pub(crate) fn complemented(self) -> TwoSums
        ensures { result ≡ spec.complement_sums self }
    {
        TwoSums {
            plain: self.complement,
            complement: self.plain,
        }
    }

    /// The sums of `self` and `other` together. It fails only where memory runs out.
    pub(crate) fn and(self, alloc: Global, other: TwoSums) -> Result<TwoSums, NoMemory>
        ensures { IfOk result (λ sums. sums ≡ spec.both_sums self other) }
    {
        Ok(TwoSums {
            plain: times(alloc, self.plain, other.plain)?,
            complement: plus(self.complement, other.complement)?,
        })
    }

    /// The sums of `self` or `other`. It fails only where memory runs out.
    pub(crate) fn or(self, alloc: Global, other: TwoSums) -> Result<TwoSums, NoMemory>
        ensures { IfOk result (λ sums. sums ≡ spec.either_sums self other) }
    {
        Ok(TwoSums {
            plain: plus(self.plain, other.plain)?,
            complement: times(alloc, self.complement, other.complement)?,
        })
    }

    /// The cubes of the plain sum.
    pub(crate) fn into_plain(self) -> Option<Vec<Cube>>
        ensures { option_map vec_items result ≡ self.plain }
    {
        self.plain
    }
}
