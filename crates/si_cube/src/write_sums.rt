//! Writes the words of sums.

ghost use Rattle.std.specs.Prelude.{◌≡◌, [], ◌∷◌, ◌++◌, OnOk, map};
ghost use Rattle.std.specs.Prelude.{if◌then◌else◌};
ghost use Rattle.si_base.specs.Bytes.{space, apostrophe};
ghost use Rattle.si_base.specs.NetlistText.{cube_words, literal_word, more_cubes, sum_words};
ghost use Rattle.si_words.specs.Loops.Writing.{spaced};

use crate::cube::Cube;
use crate::sum::Sum;
use si_base::graph::{Signal, signal_name};
use si_base::ids::{Literal, NoMemory, Sig};
use si_base::limits::CODE_WIDTH;
use si_base::text::Text;
use si_words::writing::add_word;

/// Adds the words of the sum, each with a blank before it.
///
/// It fails only where memory runs out. The text may then end in a part of them, and isn't to be
/// used.
pub fn add_sum(text: &mut Text, signals: &[Signal], sum: &Sum) -> Result<(), NoMemory>
    ensures { OnOk result (text.new ≡ text.old ++ spaced (sum_words signals.now sum.now)) }
{
    match sum.cubes() {
        [] => add_word(text, b"0"),
        [first, rest @ ..] => {
            add_cube(text, signals, first)?;
            add_more_cubes(text, signals, rest)
        }
    }
}

/// Adds the words of the cubes after the first, each cube after a `+`.
fn add_more_cubes(text: &mut Text, signals: &[Signal], cubes: &[Cube]) -> Result<(), NoMemory>
    ensures { OnOk result (text.new ≡ text.old ++ spaced (more_cubes signals.now cubes.now)) }
{
    for cube in cubes {
        add_word(text, b"+")?;
        add_cube(text, signals, cube)?;
    }
    Ok(())
}

/// Adds the words of the cube, each with a blank before it.
///
/// It fails only where memory runs out. The text may then end in a part of them, and isn't to be
/// used.
pub fn add_cube(text: &mut Text, signals: &[Signal], cube: &Cube) -> Result<(), NoMemory>
    ensures { OnOk result (text.new ≡ text.old ++ spaced (cube_words signals.now cube.now)) }
{
    if cube.care.0 == 0 {
        return add_word(text, b"1");
    }
    add_cube_literals(text, signals, cube)
}

/// Adds the literals of the cube.
fn add_cube_literals(text: &mut Text, signals: &[Signal], cube: &Cube) -> Result<(), NoMemory>
    ensures { OnOk result
        (text.new ≡ text.old ++ spaced (map (literal_word signals.now) cube.now)) }
{
    for i in 0..CODE_WIDTH {
        let sig = Sig(i as u8);
        if !cube.care.get(sig) {
            continue;
        }
        let plain = cube.value.get(sig);
        add_literal(text, signals, Literal { sig, plain })?;
    }
    Ok(())
}

/// Adds the literals.
pub fn add_literals(
    text: &mut Text,
    signals: &[Signal],
    literals: &[Literal],
) -> Result<(), NoMemory>
    ensures { OnOk result
        (text.new ≡ text.old ++ spaced (map (literal_word signals.now) literals.now)) }
{
    for literal in literals {
        add_literal(text, signals, *literal)?;
    }
    Ok(())
}

/// Adds the literal.
fn add_literal(text: &mut Text, signals: &[Signal], literal: Literal) -> Result<(), NoMemory>
    ensures { OnOk result (text.new ≡ text.old ++ space ∷ literal_word signals.now literal) }
{
    add_word(text, signal_name(signals, literal.sig))?;
    text.add(mark(literal.plain))
}

/// What stands behind a name in a literal.
fn mark(plain: bool) -> &'static [u8]
    ensures { result.now ≡ (if plain then [] else apostrophe ∷ []) }
{
    if plain { b"" } else { b"'" }
}
