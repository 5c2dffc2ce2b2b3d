//! Netlists.

ghost use Rattle.std.specs.Prelude.{◌≡◌, ◌<◌, Some, map, slice_get};
ghost use Rattle.si_base.specs.WellFormed.{IsNetlist};
ghost use Rattle.si_base.specs.Graph.{IsNonInput};
ghost use Rattle.si_base.specs.Limits.{max_signals};
ghost use Rattle.si_base.specs.Netlist as base;
ghost use Rattle.si_netlist.specs.Loops.Parts.{gate_seen};
ghost use Rattle.si_netlist.specs.Reads.{MarksExactly, signal_reads};

use crate::gate::{Gate, Insert};
use si_base::graph::Signal;
use si_base::ids::{Code, Sig};
use si_base::text::Name;
use std::marker::Model;

/// A netlist: a model name, signals with their start values, insertions, and a gate for each signal
/// that isn't an input, in signal order.
#[derive(Drop)]
pub struct Netlist {
    model: Name,
    signals: Vec<Signal>,
    start: Code,
    inserts: Vec<Insert>,
    gates: Vec<Gate>,
}

/// What a netlist is made of.
#[derive(Drop)]
pub struct Parts {
    pub model: Name,
    pub signals: Vec<Signal>,
    pub start: Code,
    pub inserts: Vec<Insert>,
    pub gates: Vec<Gate>,
}

impl Model for Netlist {
    ghost use Rattle.std.specs.Prelude.{map};
    ghost use Rattle.si_base.specs.Netlist as base;
    ghost use Rattle.si_base.specs.WellFormed.{IsNetlist};
    ghost use Rattle.si_netlist.specs.Loops.Parts.{gate_seen};

    ghost Value = { base.Netlist };

    ghost view = { λ n. record {
      model = n.model;
      signals = n.signals.items;
      start = n.start;
      inserts = n.inserts.items;
      gates = map gate_seen n.gates.items;
    } };

    ghost invariant = { λ n. IsNetlist (record {
      model = n.model;
      signals = n.signals.items;
      start = n.start;
      inserts = n.inserts.items;
      gates = map gate_seen n.gates.items;
    }) };
}

impl Netlist {
    /// The netlist of these parts.
    pub fn make(
        model: Name,
        signals: Vec<Signal>,
        start: Code,
        inserts: Vec<Insert>,
        gates: Vec<Gate>,
    ) -> Netlist
        requires { IsNetlist (record {
          model = model;
          signals = signals.items;
          start = start;
          inserts = inserts.items;
          gates = map gate_seen gates.items;
        }) }
        ensures { result ≡ record {
          model = model;
          signals = signals.items;
          start = start;
          inserts = inserts.items;
          gates = map gate_seen gates.items;
        } }
    {
        Netlist {
            model,
            signals,
            start,
            inserts,
            gates,
        }
    }

    /// What the netlist is made of.
    pub fn into_parts(self) -> Parts
        ensures parts { self ≡ record {
          model = result.model;
          signals = result.signals.items;
          start = result.start;
          inserts = result.inserts.items;
          gates = map gate_seen result.gates.items;
        } }
        ensures netlist { IsNetlist self }
    {
        let Netlist {
            model,
            signals,
            start,
            inserts,
            gates,
        } = self;
        Parts {
            model,
            signals,
            start,
            inserts,
            gates,
        }
    }

    /// The name of the model.
    pub fn model(&self) -> &Name
        ensures { result.now ≡ self.now.model }
    {
        &self.model
    }

    /// The signals in signal order, and what holds of each netlist.
    pub fn signals(&self) -> &[Signal]
        ensures signals { result.now ≡ self.now.signals }
        ensures netlist { IsNetlist self.now }
    {
        self.signals.as_slice()
    }

    /// The value of each signal at the start.
    pub fn start(&self) -> Code
        ensures { result ≡ self.now.start }
    {
        self.start
    }

    /// The insertions, in their order.
    pub fn inserts(&self) -> &[Insert]
        ensures { result.now ≡ self.now.inserts }
    {
        self.inserts.as_slice()
    }

    /// The gates of the signals that aren't inputs, in signal order.
    pub fn gates(&self) -> &[Gate]
        ensures { map gate_seen result.now ≡ self.now.gates }
    {
        self.gates.as_slice()
    }

    /// The value that the gate of a signal has at the code.
    pub fn gate_value(&self, z: Sig, code: Code) -> bool
        requires { IsNonInput self.now.signals z }
        ensures { result ≡ base.gate_value self.now z code }
    {
        self.gate_of(z).value(z, code)
    }

    /// The signals that the gate of a signal has literals of, each as a 1.
    pub fn reads(&self, z: Sig) -> Code
        requires { IsNonInput self.now.signals z }
        ensures { MarksExactly (signal_reads self.now z) result }
    {
        self.gate_of(z).reads()
    }

    /// The gate of a signal. The signals without one, the inputs, stand in front.
    pub fn gate_of(&self, z: Sig) -> &Gate
        requires { IsNonInput self.now.signals z }
        ensures gate { slice_get self.now.gates (base.gate_place self.now.signals z)
            ≡ Some (gate_seen result.now) }
        ensures within { z < max_signals }
    {
        let inputs = self.signals.len() - self.gates.len();
        &self.gates[z.0 as usize - inputs]
    }
}
