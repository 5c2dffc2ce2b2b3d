//! Values of cells at states.

ghost use Rattle.std.specs.Prelude.{◌≡◌, ℕ, ◌<◌, ◌≤◌, All, length};
ghost use Rattle.si_base.specs.Codes.{code};
ghost use Rattle.si_base.specs.Limits.{code_width};
ghost use Rattle.si_cell.specs.Limits.{max_pins};
ghost use Rattle.si_match.specs.Fit as fit;

use crate::triggers::MAX_WITNESSES;
use arrayvec::ArrayVec;
use si_base::ids::{Sig, StateId};
use si_cell::cell::{Cell, PinLiteral};
use si_cell::library::values_of;
use si_graph::coded::Coded;

/// Whether the cell with these literals has the next value of `z` at the state, where its own
/// output has the value of `z`.
fn suits(coded: &Coded, z: Sig, cell: &Cell, literals: &[PinLiteral], s: StateId) -> bool
    requires state { s < coded.now.graph.states }
    requires signal { z < length coded.now.graph.signals }
    requires width { length coded.now.graph.signals ≤ code_width }
    requires few { length literals.now ≤ max_pins }
    requires signals { All (λ l. l.sig < code_width) literals.now }
    ensures { result ≡ fit.suits coded.now z cell.now literals.now (s, code coded.now s) }
{
    let code = coded.code(s);
    let values = values_of(literals, code, code.get(z));
    cell.value(values) == coded.next_value(s, z)
}

/// Whether it does so at every state. The first state at which it doesn't joins the witnesses, if
/// there is room.
pub(crate) fn fits(
    coded: &Coded,
    z: Sig,
    cell: &Cell,
    literals: &[PinLiteral],
    witnesses: &mut ArrayVec<u32, MAX_WITNESSES>,
) -> bool
    requires signal { z < length coded.now.graph.signals }
    requires width { length coded.now.graph.signals ≤ code_width }
    requires few { length literals.now ≤ max_pins }
    requires signals { All (λ l. l.sig < code_width) literals.now }
    requires witnesses { All (λ s. s < coded.now.graph.states) witnesses.old.items }
    ensures fits { result ≡ fit.fits coded.now z cell.now literals.now }
    ensures witnesses { All (λ s. s < coded.now.graph.states) witnesses.new.items }
{
    for s in 0..coded.graph().states() {
        if suits(coded, z, cell, literals, StateId(s)) {
            continue;
        }
        add_witness(witnesses, s);
        return false;
    }
    true
}

/// Adds the state to the witnesses, if there is room.
pub(crate) fn add_witness(witnesses: &mut ArrayVec<u32, MAX_WITNESSES>, state: u32)
    ensures { (count : ℕ) → state < count → All (λ s. s < count) witnesses.old.items
        → All (λ s. s < count) witnesses.new.items }
{
    if witnesses.len() < MAX_WITNESSES {
        witnesses.push(state);
    }
}
