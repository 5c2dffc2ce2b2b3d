//! Sums: disjunctions of cubes.

ghost use Rattle.std.specs.Prelude.{◌≡◌};
ghost use Rattle.si_base.specs.Netlist.{sum_value};

use crate::cube::Cube;
use si_base::ids::Code;
use std::marker::Model;

/// A list of cubes. Contracts see it as the list of their lists of literals.
#[derive(Drop)]
pub struct Sum {
    cubes: Vec<Cube>,
}

impl Model for Sum {
    ghost use Rattle.si_base.specs.Netlist as base;

    ghost Value = { base.Sum };

    ghost view = { λ s. s.cubes.items };
}

impl Sum {
    /// The sum of these cubes.
    pub fn new(cubes: Vec<Cube>) -> Sum
        ensures { result ≡ cubes.items }
    {
        Sum { cubes }
    }

    /// Its cubes, in order.
    pub fn cubes(&self) -> &[Cube]
        ensures { result.now ≡ self.now }
    {
        self.cubes.as_slice()
    }

    /// Whether one of its cubes covers the code.
    pub fn value(&self, code: Code) -> bool
        ensures { result ≡ sum_value code self.now }
    {
        self.cubes.iter().any(|cube| cube.covers(code))
    }
}
