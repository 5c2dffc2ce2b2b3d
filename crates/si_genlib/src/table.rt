//! Truth tables of gates: their values, and whether a gate falls with its own output.

ghost use Rattle.std.specs.Prelude.{◌≡◌, ◌+◌, ◌<◌, ◌≤◌, ◌^◌};
ghost use Rattle.si_cell.specs.Limits.{max_pins};
ghost use Rattle.si_genlib.specs.Gate as spec;
ghost use Rattle.si_genlib.specs.Loops.Tables.{table_value};

/// The value of a table at the code of so many pins and the own output.
pub(crate) fn value(count: u32, table: u32, code: u32) -> bool
    requires few { count ≤ max_pins }
    requires fits { code < 2 ^ (count + 1) }
    ensures { result ≡ table_value count table code }
{
    let size = 1 << count;
    table >> (code % size + 16 * (code / size)) & 1 == 1
}

/// Whether the value at these pins is 1 where the own output is 0, and 0 where it is 1.
fn falls_at(count: u32, table: u32, pins: u32) -> bool
    requires few { count ≤ max_pins }
    requires fits { pins < 2 ^ count }
    ensures { result ≡ spec.falls_at count (table_value count table) pins }
{
    value(count, table, pins) && !value(count, table, pins + (1 << count))
}

/// Whether it is so for some values of the pins.
pub(crate) fn falls(count: u32, table: u32) -> bool
    requires { count ≤ max_pins }
    ensures { result ≡ spec.falls count (table_value count table) }
{
    let size = 1 << count;
    for pins in 0..size {
        if falls_at(count, table, pins) {
            return true;
        }
    }
    false
}
