//! Gates and insertions.

ghost use Rattle.std.specs.Prelude.{◌≡◌, ◌<◌};
ghost use Rattle.si_base.specs.Limits.{max_signals};
ghost use Rattle.si_netlist.specs.Reads.{MarksExactly, sum_reads};

use crate::name_list::NameList;
use si_base::ids::{Code, Literal, Sig};
use si_base::text::Name;
use si_cube::sum::Sum;
use std::marker::Model;

/// The gate of a signal.
#[derive(Drop)]
pub enum Gate {
    /// Has the value of the sum.
    Sum(Sum),
    /// A generalised C-element: `set`, or the signal where not `reset`.
    Gc {
        set: Sum,
        reset: Sum,
    },
    /// An instance of a library cell, with a literal for each pin, and the sum that it computes.
    Cell {
        name: Name,
        literals: Vec<Literal>,
        sum: Sum,
    },
}

impl Gate {
    ghost use Rattle.si_base.specs.Netlist.{value_of};
    ghost use Rattle.si_netlist.specs.Loops.Parts.{gate_seen};
    ghost use Rattle.si_netlist.specs.Reads.{gate_reads};

    /// The value at the code, as the gate of signal `z`.
    pub fn value(&self, z: Sig, code: Code) -> bool
        requires { z < max_signals }
        ensures { result ≡ value_of (gate_seen self.now) z code }
    {
        match self {
            Gate::Sum(sum) => sum.value(code),
            Gate::Gc { set, reset } => set.value(code) || code.get(z) && !reset.value(code),
            Gate::Cell { sum, .. } => sum.value(code),
        }
    }

    /// The signals that have a literal in one of its sums, each as a 1. A generalised C-element
    /// keeps its own signal without a literal of it.
    pub fn reads(&self) -> Code
        ensures { MarksExactly (gate_reads (gate_seen self.now)) result }
    {
        match self {
            Gate::Sum(sum) => sum_reads(sum),
            Gate::Gc { set, reset } => Code(sum_reads(set).0 | sum_reads(reset).0),
            Gate::Cell { sum, .. } => sum_reads(sum),
        }
    }
}

/// The signals that have a literal in the sum, each as a 1.
fn sum_reads(sum: &Sum) -> Code
    ensures { MarksExactly (sum_reads sum.now) result }
{
    let mut signals = 0;
    for cube in sum.cubes() {
        signals |= cube.care.0;
    }
    Code(signals)
}

/// An inserted signal, with the states at which it rises and falls, as they are spelled.
#[derive(Drop)]
pub struct Insert {
    pub name: Name,
    pub up: NameList,
    pub down: NameList,
}

impl Model for Insert {
    ghost use Rattle.si_base.specs.Netlist.{Insertion};

    ghost Value = { Insertion };

    ghost view = { λ i. record { name = i.name; up = i.up; down = i.down } };
}
