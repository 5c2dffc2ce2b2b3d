//! States that refute all instances with some literals at their first pins.

ghost use Rattle.std.specs.Prelude.{◌≡◌, ℕ, ◌<◌, ◌≤◌, ◌-◌, All, length, true, false};
ghost use Rattle.si_base.specs.Codes.{IsCoded, code};
ghost use Rattle.si_base.specs.Limits.{code_width};
ghost use Rattle.si_base.specs.Netlist.{sum_value};
ghost use Rattle.si_cell.specs.Limits.{max_pins};
ghost use Rattle.si_match.specs.Loops.Search.{IsRefuted, IsRefutedAt, AgreeOutside};

use si_base::ids::{Code, Sig, StateId};
use si_cell::cell::{Cell, PinLiteral};
use si_cell::library::values_of;
use si_graph::coded::Coded;

/// Whether the cell's sum has the value at one of the codes that differ from this one only at
/// signals from `from` on, up to `to`.
fn can_be(cell: &Cell, values: Code, from: usize, to: usize, value: bool) -> bool
    requires { to < code_width }
    ensures { result ≡ false → (other : ℕ) → AgreeOutside from to values other
        → sum_value other cell.now.sum ≡ value → ⊥ }
{
    if from >= to {
        return cell.value(values) == value;
    }
    let pin = Sig(from as u8);
    can_be(cell, values.set(pin, false), from + 1, to, value)
        || can_be(cell, values.set(pin, true), from + 1, to, value)
}

/// Whether at the state no instance of the cell with these literals at its first pins has the next
/// value of `z`, whatever the values of its further pins are.
fn is_refuted_at(coded: &Coded, z: Sig, cell: &Cell, literals: &[PinLiteral], s: StateId) -> bool
    requires state { s < coded.now.graph.states }
    requires signal { z < length coded.now.graph.signals }
    requires width { length coded.now.graph.signals ≤ code_width }
    requires first { length literals.now ≤ length cell.now.pins }
    requires few { length cell.now.pins ≤ max_pins }
    requires signals { All (λ l. l.sig < code_width) literals.now }
    ensures { result ≡ true → IsRefutedAt coded.now z cell.now literals.now
        (length cell.now.pins - length literals.now) (s, code coded.now s) }
{
    let code = coded.code(s);
    let pins = cell.pins.len();
    let values = values_of(literals, code, false).set(Sig(pins as u8), code.get(z));
    !can_be(cell, values, literals.len(), pins, coded.next_value(s, z))
}

/// Whether one of the states refutes all instances of the cell with these literals at its first
/// pins. Where none does, one may fit or not.
pub(crate) fn is_refuted(
    coded: &Coded,
    z: Sig,
    cell: &Cell,
    literals: &[PinLiteral],
    states: &[u32],
) -> bool
    requires coded { IsCoded coded.now }
    requires signal { z < length coded.now.graph.signals }
    requires width { length coded.now.graph.signals ≤ code_width }
    requires first { length literals.now ≤ length cell.now.pins }
    requires few { length cell.now.pins ≤ max_pins }
    requires signals { All (λ l. l.sig < code_width) literals.now }
    requires states { All (λ s. s < coded.now.graph.states) states.now }
    ensures { result ≡ true → IsRefuted coded.now z cell.now literals.now
        (length cell.now.pins - length literals.now) }
{
    for state in states {
        let s = StateId(*state);
        if is_refuted_at(coded, z, cell, literals, s) {
            return true;
        }
    }
    false
}
