//! The codes at which a gate has to be 1 and those at which it has to be 0, and the sum that is
//! chosen for them.

ghost use Rattle.std.specs.Prelude.{◌≡◌, ◌+◌, ◌≤◌, ◌^◌, not, filter, IfOk};
ghost use Rattle.si_cell.specs.Limits.{max_pins};
ghost use Rattle.si_genlib.specs.Gate as spec;
ghost use Rattle.si_genlib.specs.Loops.Tables.{table_value};

use crate::table::value;
use si_base::ids::{Code, NoMemory};
use si_cube::codes::sum_of_codes;
use si_cube::sum::Sum;
use std::alloc::Global;

/// The codes at which a table has the value 1, and those at which it has the value 0.
#[derive(Drop)]
struct Demand {
    required: Vec<Code>,
    forbidden: Vec<Code>,
}

/// The codes of so many bits, parted by the value of the table.
fn demand_of(alloc: Global, bits: u32, count: u32, table: u32) -> Result<Demand, NoMemory>
    requires few { count ≤ max_pins }
    requires width { bits ≤ count + 1 }
    ensures required { IfOk result (λ d. d.required.items
        ≡ filter (table_value count table) (spec.below (2 ^ bits))) }
    ensures forbidden { IfOk result (λ d. d.forbidden.items
        ≡ filter (λ code. not (table_value count table code)) (spec.below (2 ^ bits))) }
{
    let mut required = Vec::new(alloc);
    let mut forbidden = Vec::new(alloc);
    let size = 1u32 << bits;
    for code in 0..size {
        if value(count, table, code) {
            required.push(Code(u128::from(code)))?;
        } else {
            forbidden.push(Code(u128::from(code)))?;
        }
    }
    Ok(Demand {
        required,
        forbidden,
    })
}

/// The sum that is chosen for the codes of so many bits, by the value of the table.
pub(crate) fn sum_of(alloc: Global, bits: u32, count: u32, table: u32) -> Result<Sum, NoMemory>
    requires few { count ≤ max_pins }
    requires width { bits ≤ count + 1 }
    ensures { IfOk result (λ sum. sum ≡ spec.sum_of bits (table_value count table)) }
{
    let demand = demand_of(alloc, bits, count, table)?;
    sum_of_codes(alloc, bits as usize, &demand.required, &demand.forbidden)
}
