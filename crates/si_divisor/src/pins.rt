//! The pin literals of a signal.

ghost use Rattle.std.specs.Prelude.{◌≡◌, ◌<◌, ◌*◌, ◌/◌, ◌%◌, ◌==◌, List, IfOk, MatchOption};
ghost use Rattle.std.specs.List.{list_any};
ghost use Rattle.si_base.specs.Graph.{IsNonInput};
ghost use Rattle.si_base.specs.Limits.{code_width};
ghost use Rattle.si_base.specs.declared.ids.Literal.{Literal as LiteralValue};
ghost use Rattle.si_cell.specs.Literals.{has_literal};
ghost use Rattle.si_checks.specs.Loops.Lent.{coded_of};
ghost use Rattle.si_cover.specs.Mono.{IsLeastMono};
ghost use Rattle.si_divisor.specs.Divisors.{ArePins};
ghost use Rattle.si_divisor.specs.Loops.PinTests.{is_pin as is_pin_literal, AreCubesOf};
ghost use Rattle.si_regions.specs.Regions.{IsRegion};

use si_base::ids::{Code, Literal, NoMemory, Sig};
use si_checks::distinct::Distinct;
use si_cover::mono::mono;
use si_cube::cube::Cube;
use si_match::support::support;
use si_regions::regions::{Region, regions};
use std::alloc::Global;

/// The pin literals of `z` in literal order: both literals of each signal of its support, and the
/// literals of the least monotonous cubes of the components of the states that enable its events,
/// where there are such cubes. It fails only where memory runs out.
///
/// Source: the book, on the decomposition of gates.
pub fn pin_set(alloc: Global, graph: Distinct<'_>, z: Sig) -> Result<Vec<Literal>, NoMemory>
    requires { IsNonInput (coded_of graph).graph.signals z }
    ensures { IfOk result (λ pins. ArePins (coded_of graph.entry) z pins.items) }
{
    let support = support(alloc, graph, z)?;
    let cubes = least_cubes(alloc, graph, z)?;
    let places = 2 * graph.proper().coded().graph().signals().len();
    let mut pins = Vec::new(alloc);
    for place in 0..places {
        let literal = literal_at(place);
        if is_pin(support, cubes.as_slice(), &literal) {
            pins.push(literal)?;
        }
    }
    Ok(pins)
}

/// The literal at a place of literal order: both literals of the first signal, the plain one first,
/// then those of the next, and so on.
fn literal_at(place: usize) -> Literal
    requires { place < 2 * code_width }
    ensures { result ≡ record { sig = place / 2; plain = place % 2 == 0 } }
{
    Literal {
        sig: Sig((place / 2) as u8),
        plain: place % 2 == 0,
    }
}

/// Whether the signal of the literal is in the support, or one of the cubes has the literal.
fn is_pin(support: Code, cubes: &[Cube], literal: &Literal) -> bool
    requires { literal.now.sig < code_width }
    ensures { result ≡ is_pin_literal support cubes.now literal.now }
{
    support.get(literal.sig) || one_has(cubes, literal)
}

/// Whether one of the cubes has the literal.
fn one_has(cubes: &[Cube], literal: &Literal) -> bool
    requires { literal.now.sig < code_width }
    ensures { result ≡ list_any (λ cube. has_literal cube literal.now) cubes.now }
{
    cubes.iter().any(|cube| has(cube, literal))
}

/// Whether the cube has the literal.
fn has(cube: &Cube, literal: &Literal) -> bool
    requires { literal.now.sig < code_width }
    ensures { result ≡ has_literal cube.now literal.now }
{
    cube.care.get(literal.sig) && cube.value.get(literal.sig) == literal.plain
}

/// The least monotonous cubes of the components of the states that enable an event of `z`, where
/// there are such cubes.
fn least_cubes(alloc: Global, graph: Distinct<'_>, z: Sig) -> Result<Vec<Cube>, NoMemory>
    ensures { IfOk result (λ cubes. AreCubesOf (coded_of graph.entry) z cubes.items) }
{
    let all = regions(alloc, graph.proper().coded())?;
    let mut cubes = Vec::new(alloc);
    for region in &all {
        if let Some(cube) = cube_for(graph, region, z) {
            cubes.push(cube)?;
        }
    }
    Ok(cubes)
}

/// The least monotonous cube of the region, if its event is one of `z`, and it has such a cube.
fn cube_for(graph: Distinct<'_>, region: &Region, z: Sig) -> Option<Cube>
    requires { IsRegion (coded_of graph) region.now }
    ensures { MatchOption result
        (region.now.event.sig ≡ z → (cube : List LiteralValue)
        → IsLeastMono (coded_of graph.entry) region.now.er region.now.qr cube → ⊥)
        (λ cube. (region.now.event.sig ≡ z)
        × IsLeastMono (coded_of graph.entry) region.now.er region.now.qr cube) }
{
    if region.event.sig != z {
        return None;
    }
    mono(graph, region).ok()
}
