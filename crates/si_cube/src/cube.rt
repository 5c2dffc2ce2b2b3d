//! Cubes: products of literals.

ghost use Rattle.std.specs.Prelude.{◌≡◌, ◌<◌, ◌≤◌, ◌==◌, not, filter};
ghost use Rattle.std.specs.List.{list_all};
ghost use Rattle.si_base.specs.Limits.{code_width};
ghost use Rattle.si_base.specs.Netlist.{literal_value};
ghost use Rattle.si_cube.specs.Cubes.{IsLeastAbove};
ghost use Rattle.si_cube.specs.Literals.{full_literals};

use si_base::ids::{Code, Sig};
use std::marker::Model;

/// A cube: the signals that it cares for, and their values. Contracts see it as the list of its
/// literals, in signal order.
#[derive(Drop)]
pub struct Cube {
    /// The signals that have a literal.
    pub care: Code,
    /// Their values: 1 for a plain literal. Every other bit is 0.
    pub value: Code,
}

impl Model for Cube {
    ghost use Rattle.std.specs.Prelude.{List};
    ghost use Rattle.si_base.specs.declared.ids.Literal.{Literal};
    ghost use Rattle.si_cube.specs.Literals.{literals_of, IsWithin};

    ghost Value = { List Literal };

    ghost view = { λ c. literals_of c.care c.value };

    ghost invariant = { λ c. IsWithin c.care c.value };
}

impl Cube {
    /// The full cube of a code: a literal for each of the first `signals` signals, true at the
    /// code.
    pub fn of_code(code: Code, signals: usize) -> Cube
        requires { signals ≤ code_width }
        ensures { result ≡ full_literals signals 0 code }
    {
        let care = Code::ones(signals);
        Cube {
            care,
            value: Code(code.0 & care.0),
        }
    }

    /// Whether each of its literals is true at the code.
    pub fn covers(&self, code: Code) -> bool
        ensures { result ≡ list_all (literal_value code) self.now }
    {
        code.0 & self.care.0 == self.value.0
    }

    /// The least cube that covers the code and what this cube covers: its literals that are true at
    /// the code.
    pub fn supercube(&self, code: Code) -> Cube
        ensures literals { result ≡ filter (literal_value code) self.now }
        ensures least { IsLeastAbove self.now code result }
    {
        Cube {
            care: Code(self.care.0 & !(self.value.0 ^ code.0)),
            value: Code(self.value.0 & code.0),
        }
    }

    /// The cube without its literal of the signal.
    pub fn drop_literal(&self, s: Sig) -> Cube
        requires { s < code_width }
        ensures { result ≡ filter (λ l. not (l.sig == s)) self.now }
    {
        let others = !(1 << s.0);
        Cube {
            care: Code(self.care.0 & others),
            value: Code(self.value.0 & others),
        }
    }
}
