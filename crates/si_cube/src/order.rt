//! Parts of codes in ascending order.

ghost use Rattle.std.specs.Prelude.{◌≡◌, ◌<◌};
ghost use Rattle.std.specs.List.Sorted.{IsNonDecreasing};
ghost use Rattle.si_base.specs.Limits.{code_width};
ghost use Rattle.si_cube.specs.Order.{values_from, DifferLastAt};

use si_base::ids::Code;

/// Those of the codes, handed in in ascending order, that differ from `code` at signal `s` and at
/// none behind it.
pub fn differing_last(codes: &[Code], code: Code, s: usize) -> &[Code]
    requires in_order { IsNonDecreasing codes.now }
    requires signal { s < code_width }
    ensures { DifferLastAt codes.now code s result.now }
{
    let here = from(s, code);
    let sought = here ^ 1;
    let low = codes.partition_point(|other| from(s, *other) < sought);
    let (_, rest) = codes.split_at(low);
    let count = rest.partition_point(|other| from(s, *other) <= sought);
    let (part, _) = rest.split_at(count);
    part
}

/// The values of the signals from `s` on, as a number.
fn from(s: usize, code: Code) -> u128
    requires { s < code_width }
    ensures { result ≡ values_from s code }
{
    code.0 >> s
}
