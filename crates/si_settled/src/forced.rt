//! Which gates settle while the inputs are held, and which outputs to force so that all do.

ghost use Rattle.std.specs.Prelude.{◌≡◌, ◌<◌, All, IfOk, filter};
ghost use Rattle.si_base.specs.Bits.{bit};
ghost use Rattle.si_base.specs.Limits.{max_signals};
ghost use Rattle.si_settled.specs.Settling.{AreForced, AreSettling};

use crate::known::{known_in_the_end, suffices};
use crate::marks::{inputs, marks};
use si_base::ids::{Code, NoMemory, Sig};
use si_loops::arcs::driven;
use si_netlist::netlist::Netlist;
use std::alloc::Global;

/// The signals with gates that settle while the inputs are held, in signal order. It fails only
/// where memory runs out.
pub fn settling(alloc: Global, netlist: &Netlist) -> Result<Vec<Sig>, NoMemory>
    ensures { IfOk result (λ v. AreSettling netlist.now v.items) }
{
    let inputs = inputs(alloc, netlist)?;
    let known = known_in_the_end(alloc, netlist, marks(inputs.as_slice()))?;
    let gates = driven(alloc, netlist)?;
    those_of(alloc, gates.as_slice(), known)
}

/// Those of the signals that have a 1 in the code.
fn those_of(alloc: Global, signals: &[Sig], code: Code) -> Result<Vec<Sig>, NoMemory>
    requires { All (λ z. z < max_signals) signals.now }
    ensures { IfOk result (λ v. v.items ≡ filter (bit code) signals.now) }
{
    let mut those = Vec::new(alloc);
    for z in signals {
        if code.get(*z) {
            those.push(*z)?;
        }
    }
    Ok(those)
}

/// The outputs to force: each signal with a gate is left out without which the others that are
/// there still suffice. It fails only where memory runs out.
pub fn forced(alloc: Global, netlist: &Netlist) -> Result<Vec<Sig>, NoMemory>
    ensures forced { IfOk result (λ v. AreForced netlist.now v.items) }
    ensures narrow { IfOk result (λ v. All (λ z. z < max_signals) v.items) }
{
    let undriven = inputs(alloc, netlist)?;
    let inputs = marks(undriven.as_slice());
    let gates = driven(alloc, netlist)?;
    let mut forced = Vec::new(alloc);
    let mut left = gates.as_slice();
    while let [z, rest @ ..] = left {
        let held = inputs.0 | marks(forced.as_slice()).0 | marks(rest).0;
        if !suffices(alloc, netlist, Code(held))? {
            forced.push(*z)?;
        }
        left = rest;
    }
    Ok(forced)
}
