//! Sums over the pins of a cell, two bytes a cube.

ghost use Rattle.std.specs.Prelude.{◌≡◌, ◌≤◌, [], ◌∷◌, ◌++◌, All, IfOk, OnOk};
ghost use Rattle.std.specs.List.{list_all};
ghost use Rattle.si_base.specs.Netlist.{literal_value, sum_value};
ghost use Rattle.si_words.specs.Sums.{is_empty};
ghost use Rattle.si_cell.specs.Limits.{max_pins};

use si_base::ids::{Code, NoMemory};
use si_cube::cube::Cube;
use si_cube::sum::Sum;
use std::alloc::Global;
use std::marker::Model;

/// A cube over the pins of a cell and its own output. Contracts see it as the list of its literals,
/// in signal order.
#[derive(Drop)]
pub struct PinCube {
    /// The signals that have a literal.
    care: u8,
    /// Their values: 1 for a plain literal. Every other bit is 0.
    value: u8,
}

impl Model for PinCube {
    ghost use Rattle.std.specs.Prelude.{List};
    ghost use Rattle.si_base.specs.declared.ids.Literal.{Literal};
    ghost use Rattle.si_cube.specs.Literals.{literals_of, IsWithin};

    ghost Value = { List Literal };

    ghost view = { λ c. literals_of c.care c.value };

    ghost invariant = { λ c. IsWithin c.care c.value };
}

impl PinCube {
    /// The cube of these literals.
    pub fn of(cube: &Cube) -> PinCube
        requires { All (λ l. l.sig ≤ max_pins) cube.now }
        ensures { result ≡ cube.now }
    {
        PinCube {
            care: cube.care.0 as u8,
            value: cube.value.0 as u8,
        }
    }

    /// The same literals as a cube over any signals.
    pub fn widened(&self) -> Cube
        ensures { result ≡ self.now }
    {
        Cube {
            care: Code(u128::from(self.care)),
            value: Code(u128::from(self.value)),
        }
    }

    /// Whether each of its literals is true at the code.
    fn covers(&self, code: Code) -> bool
        ensures { result ≡ list_all (literal_value code) self.now }
    {
        self.widened().covers(code)
    }
}

/// A list of cubes over the pins of a cell and its own output. Contracts see it as the list of
/// their lists of literals.
#[derive(Drop)]
pub struct PinSum {
    cubes: Vec<PinCube>,
}

impl Model for PinSum {
    ghost use Rattle.si_base.specs.Netlist as base;

    ghost Value = { base.Sum };

    ghost view = { λ s. s.cubes.items };
}

impl PinSum {
    /// The sum without cubes.
    pub fn new(alloc: Global) -> PinSum
        ensures { result ≡ [] }
    {
        PinSum {
            cubes: Vec::new(alloc),
        }
    }

    /// The sum of the same cubes. It fails only where memory runs out.
    pub fn of(alloc: Global, sum: &Sum) -> Result<PinSum, NoMemory>
        requires { All (All (λ l. l.sig ≤ max_pins)) sum.now }
        ensures { IfOk result (λ made. made ≡ sum.now) }
    {
        let mut made = PinSum::new(alloc);
        for cube in sum.cubes() {
            made.push(PinCube::of(cube))?;
        }
        Ok(made)
    }

    /// Puts a cube last.
    pub fn push(&mut self, cube: PinCube) -> Result<(), NoMemory>
        ensures { OnOk result (self.new ≡ self.old ++ cube ∷ []) }
    {
        self.cubes.push(cube)?;
        Ok(())
    }

    /// Whether it has no cube.
    pub fn is_empty(&self) -> bool
        ensures { result ≡ is_empty self.now }
    {
        self.cubes.is_empty()
    }

    /// Its cubes, in order.
    pub fn cubes(&self) -> &[PinCube]
        ensures { result.now ≡ self.now }
    {
        self.cubes.as_slice()
    }

    /// Whether one of its cubes covers the code.
    pub fn value(&self, code: Code) -> bool
        ensures { result ≡ sum_value code self.now }
    {
        self.cubes.iter().any(|cube| cube.covers(code))
    }

    /// The same cubes over any signals. It fails only where memory runs out.
    pub fn widened(&self, alloc: Global) -> Result<Sum, NoMemory>
        ensures { IfOk result (λ sum. sum ≡ self.now) }
    {
        let mut cubes = Vec::new(alloc);
        for cube in &self.cubes {
            cubes.push(cube.widened())?;
        }
        Ok(Sum::new(cubes))
    }
}
