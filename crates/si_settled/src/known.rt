//! Which signals are known in the end, where some are held at their start values.

ghost use Rattle.std.specs.Prelude.{ℕ, ◌<◌, ◌↔◌, List, All, IfOk, IsTrue, MatchOption};
ghost use Rattle.std.specs.Prelude.{get_or, length};
ghost use Rattle.si_base.specs.Graph.{IsNonInput};
ghost use Rattle.si_netlist.specs.Reads.{MarksExactly};
ghost use Rattle.si_settled.specs.Settling.{ComesTo, Suffices, is_among};
ghost use Rattle.si_settled.specs.Loops.Known.{IsShownBy};

use crate::marks::has_all;
use crate::shown::is_shown;
use si_base::ids::{Code, NoMemory, Sig};
use si_loops::arcs::driven;
use si_netlist::netlist::Netlist;
use std::alloc::Global;

/// Whether the cubes show that all gates settle while these signals are held.
pub(crate) fn suffices(alloc: Global, netlist: &Netlist, held: Code) -> Result<bool, NoMemory>
    ensures { IfOk result (λ enough. (signals : List ℕ) → MarksExactly (is_among signals) held
        → (IsTrue enough ↔ Suffices netlist.now signals)) }
{
    let known = known_in_the_end(alloc, netlist, held)?;
    Ok(has_all(known, netlist.signals().len()))
}

/// The signals that are known in the end, where these are held.
pub(crate) fn known_in_the_end(
    alloc: Global,
    netlist: &Netlist,
    held: Code,
) -> Result<Code, NoMemory>
    ensures { IfOk result (λ known. (signals : List ℕ) → MarksExactly (is_among signals) held
        → (end : List ℕ) × ComesTo netlist.now signals end × MarksExactly (is_among end) known) }
{
    let mut left = driven(alloc, netlist)?;
    let mut known = held;
    while let Some(k) = next_shown(netlist, left.as_slice(), known) {
        known = known.set(left.remove(k), true);
    }
    Ok(known)
}

/// The place of the first of the signals whose gate is shown.
fn next_shown(netlist: &Netlist, signals: &[Sig], known: Code) -> Option<usize>
    requires { All (IsNonInput netlist.now.signals) signals.now }
    ensures { MatchOption result (All (λ z. IsShownBy netlist.now known z → ⊥) signals.now)
        (λ k. (k < length signals.now) × IsShownBy netlist.now known (get_or signals.now k 0)) }
{
    for k in 0..signals.len() {
        if is_shown(netlist, signals[k], known) {
            return Some(k);
        }
    }
    None
}
