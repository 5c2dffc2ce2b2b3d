//! Cells, and instances of cells.

ghost use Rattle.std.specs.Prelude.{◌≡◌};
ghost use Rattle.si_base.specs.Netlist.{sum_value};
ghost use Rattle.si_cell.specs.Library as spec;

use crate::limits::{MAX_PINS, TABLE_CODES};
use crate::pin_sum::PinSum;
use arrayvec::ArrayVec;
use si_base::ids::{Code, Literal, Sig};
use si_base::text::Name;
use std::marker::Model;

/// A cell of a library.
#[derive(Drop)]
pub struct Cell {
    pub name: Name,
    /// The names of its pins.
    pub pins: Vec<Name>,
    /// What it computes: signal i is the i-th pin, from 0, and the signal after the last pin is the
    /// cell's own output.
    pub sum: PinSum,
    table: u32,
}

impl Model for Cell {
    ghost Value = { spec.Cell };

    ghost view = { λ c. record { name = c.name; pins = c.pins.items; sum = c.sum } };

    ghost invariant = { λ c. c.table ≡ spec.table_of c.sum };
}

impl Cell {
    /// The cell of this name, these pins and this sum.
    pub fn new(name: Name, pins: Vec<Name>, sum: PinSum) -> Cell
        ensures { result ≡ record { name = name; pins = pins.items; sum = sum } }
    {
        let table = table_of(&sum);
        Cell {
            name,
            pins,
            sum,
            table,
        }
    }

    /// The value of its sum at the code, in which bit i is the value of the i-th pin, and the bit
    /// after the last pin's that of the own output.
    pub fn value(&self, code: Code) -> bool
        ensures { result ≡ sum_value code self.now.sum }
    {
        if code.0 < u128::from(TABLE_CODES) {
            self.table >> code.0 & 1 == 1
        } else {
            self.sum.value(code)
        }
    }
}

/// The truth table of a sum: bit i is its value at the code i.
fn table_of(sum: &PinSum) -> u32
    ensures { result ≡ spec.table_of sum.now }
{
    let mut table = 0;
    for k in 0..TABLE_CODES {
        let code = Code(u128::from(TABLE_CODES - 1 - k));
        table = u32::from(sum.value(code)) + 2 * table;
    }
    table
}

/// The literal at a pin. Contracts see the literal.
#[derive(Clone, Copy, PartialEq, Eq, Debug)]
pub struct PinLiteral(pub Literal);

impl Model for PinLiteral {
    ghost use Rattle.si_base.specs.declared.ids.Literal as base;

    ghost Value = { base.Literal };

    ghost view = { λ p. p.0 };

    ghost inverse = { λ l. record { 0 = l } };
}

/// What fills a place that no pin has.
impl Default for PinLiteral {
    fn default() -> PinLiteral {
        PinLiteral(Literal {
            sig: Sig(0),
            plain: true,
        })
    }
}

/// A cell with a literal for each of its pins.
#[derive(Drop)]
pub struct Instance {
    /// The place of the cell in its library, from 0.
    pub cell: u8,
    pub literals: ArrayVec<PinLiteral, MAX_PINS>,
}

impl Model for Instance {
    ghost Value = { spec.Instance };

    ghost view = { λ i. record { cell = i.cell; literals = i.literals.items } };
}
