//! The arcs of a netlist, from signals to the gates that have them at a pin.

ghost use Rattle.std.specs.Prelude.{◌≡◌, ◌<◌, ◌++◌, IfOk, OnOk, All, filter, map};
ghost use Rattle.si_base.specs.Bits.{bit};
ghost use Rattle.si_base.specs.Graph.{IsNonInput};
ghost use Rattle.si_base.specs.Limits.{max_signals};
ghost use Rattle.si_base.specs.WellFormed.{IsGate, IsNetlist};
ghost use Rattle.si_loops.specs.Arcs.{arc_to, arcs_of, gated, has_literal, has_pin};
ghost use Rattle.si_loops.specs.Loops.Paths.{IsNarrow};
ghost use Rattle.si_netlist.specs.Loops.Parts.{gate_seen};
ghost use Rattle.si_netlist.specs.Reads.{MarksExactly};

use si_base::ids::{Code, Literal, NoMemory, Sig};
use si_netlist::gate::Gate;
use si_netlist::netlist::Netlist;
use std::alloc::Global;

/// From one signal to another whose gate has it at a pin.
#[derive(Clone, Copy, PartialEq, Eq, Debug)]
pub struct Arc {
    pub from: Sig,
    pub to: Sig,
}

/// The arcs between signals with gates: in signal order of the gates, and of each gate in signal
/// order of its pins. It fails only where memory runs out.
pub fn arcs(alloc: Global, netlist: &Netlist) -> Result<Vec<Arc>, NoMemory>
    ensures arcs { IfOk result (λ v. v.items ≡ arcs_of netlist.now) }
    ensures narrow { IfOk result (λ v. All IsNarrow v.items) }
{
    let driven = driven(alloc, netlist)?;
    let mut arcs = Vec::new(alloc);
    for z in driven.as_slice() {
        let pins = pins(netlist.gate_of(*z));
        add_arcs(&mut arcs, driven.as_slice(), pins, *z)?;
    }
    Ok(arcs)
}

/// The signals with gates, in signal order, and what holds of each netlist. It fails only where
/// memory runs out.
pub fn driven(alloc: Global, netlist: &Netlist) -> Result<Vec<Sig>, NoMemory>
    ensures signals { IfOk result (λ v. v.items ≡ gated netlist.now.signals) }
    ensures gates { IfOk result (λ v.
        All (λ z. IsNonInput netlist.now.signals z × (z < max_signals)) v.items) }
    ensures netlist { IsNetlist netlist.now }
{
    let signals = netlist.signals();
    let mut driven = Vec::new(alloc);
    for z in 0..signals.len() {
        if signals[z].kind.is_driven() {
            driven.push(Sig(z as u8))?;
        }
    }
    Ok(driven)
}

/// Adds the arcs to the signal `to`, whose gate has these pins, from those of the signals.
fn add_arcs(arcs: &mut Vec<Arc>, signals: &[Sig], pins: Code, to: Sig) -> Result<(), NoMemory>
    requires { All (λ y. y < max_signals) signals.now }
    ensures { OnOk result (arcs.new.items
        ≡ arcs.old.items ++ map (arc_to to) (filter (bit pins) signals.now)) }
{
    for from in signals {
        if pins.get(*from) {
            arcs.push(Arc { from: *from, to })?;
        }
    }
    Ok(())
}

/// The signals at the pins of the gate, each as a 1.
fn pins(gate: &Gate) -> Code
    requires { IsGate max_signals (gate_seen gate.now) }
    ensures { MarksExactly (has_pin (gate_seen gate.now)) result }
{
    match gate {
        Gate::Sum(_) | Gate::Gc { .. } => gate.reads(),
        Gate::Cell { literals, .. } => signals_of(literals.as_slice()),
    }
}

/// The signals of the literals, each as a 1.
fn signals_of(literals: &[Literal]) -> Code
    requires { All (λ l. l.sig < max_signals) literals.now }
    ensures { MarksExactly (has_literal literals.now) result }
{
    let mut signals = Code(0);
    for literal in literals {
        signals = signals.set(literal.sig, true);
    }
    signals
}
