//! The sums of instances.

ghost use Rattle.std.specs.Prelude.{◌≡◌, ℕ, ◌<◌, ◌≤◌, All, MatchOption};
ghost use Rattle.std.specs.Prelude.{IfOk, length, map, not, ◌&&◌, true, false};
ghost use mathlib.Core.Bool.{beq};
ghost use Rattle.si_base.specs.Bits.{bit};
ghost use Rattle.si_base.specs.Limits.{code_width};
ghost use Rattle.si_base.specs.Netlist.{sum_value};
ghost use Rattle.si_cube.specs.Literals.{literals_of};
ghost use Rattle.si_cell.specs.Expanded.{expanded, placed, sources};
ghost use Rattle.si_cell.specs.Library.{IsInstance, instance_value};
ghost use Rattle.si_cell.specs.Limits.{max_pins};
ghost use Rattle.si_cell.specs.Literals.{clashes, in_literal_order};

use crate::cell::{Instance, PinLiteral};
use crate::library::Library;
use arrayvec::ArrayVec;
use si_base::ids::{Code, Literal, NoMemory, Sig};
use si_cube::cube::Cube;
use si_cube::sum::Sum;
use std::alloc::Global;

/// What stands for a literal of a cell's sum: the literal at its pin, or the complement of that.
fn literal_at(at_pins: &[PinLiteral], pin: Sig, plain: bool) -> Literal
    requires pin { pin < length at_pins.now }
    requires signals { All (λ l. l.sig < code_width) at_pins.now }
    ensures literal { result ≡ placed at_pins.now (record { sig = pin; plain = plain }) }
    ensures signal { result.sig < code_width }
{
    let at_pin = at_pins[pin.0 as usize];
    let literal = at_pin.0;
    if plain {
        literal
    } else {
        Literal {
            sig: literal.sig,
            plain: !literal.plain,
        }
    }
}

/// Whether the cube of this care and these values has the complement of the literal.
fn has_complement(care: Code, value: Code, literal: &Literal) -> bool
    requires { literal.now.sig < code_width }
    ensures { result ≡ (bit care literal.now.sig
        && not (beq (bit value literal.now.sig) literal.now.plain)) }
{
    care.get(literal.sig) && value.get(literal.sig) != literal.plain
}

/// The cube in which each literal of the one of this care and these values is replaced by what
/// stands at its pin, or the complement of that; `None` where a literal and its complement meet.
fn placed_cube(care: Code, value: Code, at_pins: &[PinLiteral]) -> Option<Cube>
    requires pins { All (λ l. l.sig < length at_pins.now) (literals_of care value) }
    requires few { length at_pins.now ≤ code_width }
    requires signals { All (λ l. l.sig < code_width) at_pins.now }
    ensures { MatchOption result
        (clashes (map (placed at_pins.now) (literals_of care value)) ≡ true)
        (λ cube. (clashes (map (placed at_pins.now) (literals_of care value)) ≡ false)
        × (cube ≡ in_literal_order (map (placed at_pins.now) (literals_of care value)))) }
{
    let mut made_care = Code(0);
    let mut made_value = Code(0);
    for i in 0..at_pins.len() {
        let pin = Sig(i as u8);
        if !care.get(pin) {
            continue;
        }
        let literal = literal_at(at_pins, pin, value.get(pin));
        if has_complement(made_care, made_value, &literal) {
            return None;
        }
        made_care = made_care.set(literal.sig, true);
        made_value = made_value.set(literal.sig, literal.plain);
    }
    Some(Cube {
        care: made_care,
        value: made_value,
    })
}

/// What stands at the pins of the instance and, after them, at its own output.
fn sources_of(instance: &Instance, z: Sig) -> ArrayVec<PinLiteral, 5>
    requires { length instance.now.literals ≤ max_pins }
    ensures { result.items ≡ sources instance.now.literals z }
{
    let mut at_pins = ArrayVec::new();
    for literal in instance.literals.as_slice() {
        at_pins.push(*literal);
    }
    at_pins.push(PinLiteral(Literal {
        sig: z,
        plain: true,
    }));
    at_pins
}

/// The sum that the instance computes as the gate of signal `z`: that of its cell, in which each
/// plain pin is replaced by its literal, each complemented pin by the complement of its literal,
/// and the own output by `z`. Equal literals of a cube stand once, in signal order, and a cube that
/// has a literal and its complement is left out. It fails only where memory runs out.
pub fn expand(
    alloc: Global,
    library: &Library,
    instance: &Instance,
    z: Sig,
) -> Result<Sum, NoMemory>
    requires instance { IsInstance library.now instance.now }
    requires signal { z < code_width }
    ensures sum { IfOk result (λ sum. sum ≡ expanded library.now instance.now z) }
    ensures value { IfOk result (λ sum. (code : ℕ)
        → sum_value code sum ≡ instance_value library.now instance.now code (bit code z)) }
{
    let cell = library.cell(instance.cell);
    let at_pins = sources_of(instance, z);
    let mut cubes = Vec::new(alloc);
    for cube in cell.sum.cubes() {
        let wide = cube.widened();
        if let Some(made) = placed_cube(wide.care, wide.value, at_pins.as_slice()) {
            cubes.push(made)?;
        }
    }
    Ok(Sum::new(cubes))
}
