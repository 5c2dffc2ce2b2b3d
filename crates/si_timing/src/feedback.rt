//! Whether a cell reads its own output.

ghost use Rattle.std.specs.Prelude.{◌≡◌, ◌<◌, ◌≤◌, ◌==◌, length};
ghost use Rattle.std.specs.List.{list_any};
ghost use Rattle.si_base.specs.Limits.{code_width};
ghost use Rattle.si_cell.specs.Limits.{max_pins};
ghost use Rattle.si_structure.specs.StructureText as structure;

use si_base::ids::Sig;
use si_cell::cell::Cell;
use si_cell::pin_sum::PinCube;
use si_cube::cube::Cube;

/// Whether the sum of the cell reads its own output.
pub(crate) fn reads_own(cell: &Cell) -> bool
    requires { length cell.now.pins ≤ max_pins }
    ensures { result ≡ structure.reads_own cell.now }
{
    let own = Sig(cell.pins.len() as u8);
    cell.sum
        .cubes()
        .iter()
        .any(|cube| has_literal_of(cube, own))
}

/// Whether the cube of a cell's sum has a literal of the signal.
fn has_literal_of(cube: &PinCube, x: Sig) -> bool
    requires { x < code_width }
    ensures { result ≡ list_any (λ l. l.sig == x) cube.now }
{
    cares_for(&cube.widened(), x)
}

/// Whether the cube has a literal of the signal.
fn cares_for(cube: &Cube, x: Sig) -> bool
    requires { x < code_width }
    ensures { result ≡ list_any (λ l. l.sig == x) cube.now }
{
    cube.care.0 >> x.0 & 1 == 1
}
