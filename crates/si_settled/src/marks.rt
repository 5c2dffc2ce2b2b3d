//! Signals as a code: a 1 for each of them.

ghost use Rattle.std.specs.Prelude.{◌≡◌, ℕ, ◌<◌, ◌≤◌, ◌↔◌, true, All, IfOk, IsTrue};
ghost use Rattle.si_base.specs.Bits.{bit};
ghost use Rattle.si_base.specs.Limits.{code_width, max_signals};
ghost use Rattle.si_netlist.specs.Reads.{MarksExactly};
ghost use Rattle.si_settled.specs.Settling.{inputs_of, is_among};

use si_base::ids::{Code, NoMemory, Sig};
use si_netlist::netlist::Netlist;
use std::alloc::Global;

/// The signals, each as a 1.
pub(crate) fn marks(signals: &[Sig]) -> Code
    requires { All (λ z. z < max_signals) signals.now }
    ensures { MarksExactly (is_among signals.now) result }
{
    let mut code = Code(0);
    for z in signals {
        code = code.set(*z, true);
    }
    code
}

/// Whether each of the first `count` signals is there.
pub(crate) fn has_all(code: Code, count: usize) -> bool
    requires { count ≤ code_width }
    ensures { IsTrue result ↔ ((z : ℕ) → z < count → bit code z ≡ true) }
{
    for z in 0..count {
        if !code.get(Sig(z as u8)) {
            return false;
        }
    }
    true
}

/// The signals without gates, in signal order.
pub(crate) fn inputs(alloc: Global, netlist: &Netlist) -> Result<Vec<Sig>, NoMemory>
    ensures inputs { IfOk result (λ v. v.items ≡ inputs_of netlist.now.signals) }
    ensures narrow { IfOk result (λ v. All (λ z. z < max_signals) v.items) }
{
    let signals = netlist.signals();
    let mut inputs = Vec::new(alloc);
    for z in 0..signals.len() {
        if !signals[z].kind.is_driven() {
            inputs.push(Sig(z as u8))?;
        }
    }
    Ok(inputs)
}
