//! Libraries of cells.

ghost use Rattle.std.specs.Prelude.{◌≡◌, ◌<◌, ◌≤◌, All, length};
ghost use Rattle.si_base.specs.Limits.{code_width};
ghost use Rattle.si_base.specs.Netlist.{literal_value};
ghost use Rattle.si_cell.specs.Library as library;
ghost use Rattle.si_cell.specs.Library.{IsLibrary, IsInstance, cell_at, instance_value, pin_values};
ghost use Rattle.si_cell.specs.Limits.{max_pins};
ghost use Rattle.si_cell.specs.declared.pins.Pins.TheVariants as pins;

use crate::cell::{Cell, Instance, PinLiteral};
use crate::pins::Pins;
use si_base::ids::{Code, Literal};
use si_base::text::Name;
use std::marker::Model;

/// A library: its name, its cells, and which literals the pins of its instances may have.
#[derive(Drop)]
pub struct Library {
    name: Name,
    cells: Vec<Cell>,
    pins: Pins,
}

impl Model for Library {
    ghost use Rattle.si_cell.specs.Library as spec;

    ghost Value = { spec.Library };

    ghost view = { λ l. record { name = l.name; cells = l.cells.items; pins = l.pins } };

    ghost invariant = { λ l.
        spec.IsLibrary (record { name = l.name; cells = l.cells.items; pins = l.pins }) };
}

impl Library {
    /// The library of these cells, whose pins may have any literals.
    pub fn make(name: Name, cells: Vec<Cell>) -> Library
        requires { IsLibrary (record { name = name; cells = cells.items; pins = pins.Any }) }
        ensures { result ≡ record { name = name; cells = cells.items; pins = pins.Any } }
    {
        Library {
            name,
            cells,
            pins: Pins::Any,
        }
    }

    /// The same cells with pins of that kind.
    pub fn with_pins(self, pins: Pins) -> Library
        ensures { result ≡ library.with_pins pins self }
    {
        let Library { name, cells, .. } = self;
        Library { name, cells, pins }
    }

    /// Which literals the pins of its instances may have.
    pub fn pins(&self) -> Pins
        ensures { result ≡ self.now.pins }
    {
        self.pins
    }

    /// Its name.
    pub fn name(&self) -> &Name
        ensures { result.now ≡ self.now.name }
    {
        &self.name
    }

    /// Its cells in order, and what holds of each library.
    pub fn cells(&self) -> &[Cell]
        ensures cells { result.now ≡ self.now.cells }
        ensures library { IsLibrary self.now }
    {
        self.cells.as_slice()
    }

    /// The cell at a place, and what holds of each library.
    pub fn cell(&self, k: u8) -> &Cell
        requires { k < length self.now.cells }
        ensures cell { result.now ≡ cell_at self.now k }
        ensures library { IsLibrary self.now }
    {
        &self.cells[k as usize]
    }

    /// The value of the instance at the code, where the cell's own output has the value `q`.
    pub fn value(&self, instance: &Instance, code: Code, q: bool) -> bool
        requires { IsInstance self.now instance.now }
        ensures { result ≡ instance_value self.now instance.now code q }
    {
        let values = values_of(instance.literals.as_slice(), code, q);
        self.cell(instance.cell).value(values)
    }
}

/// Whether the literal is true at the code.
fn is_true(literal: Literal, code: Code) -> bool
    requires { literal.sig < code_width }
    ensures { result ≡ literal_value code literal }
{
    code.get(literal.sig) == literal.plain
}

/// The values of the pins that have these literals at the code, and of the own output behind them.
pub fn values_of(literals: &[PinLiteral], code: Code, q: bool) -> Code
    requires few { length literals.now ≤ max_pins }
    requires signals { All (λ l. l.sig < code_width) literals.now }
    ensures { result ≡ pin_values literals.now code q }
{
    let mut values = u128::from(q);
    for i in 0..literals.len() {
        let at_pin = literals[literals.len() - 1 - i];
        let value = u128::from(is_true(at_pin.0, code));
        values = value + 2 * values;
    }
    Code(values)
}
