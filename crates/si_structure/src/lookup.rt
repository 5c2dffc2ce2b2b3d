//! Cells of a library, by their names or as inverters.

ghost use Rattle.std.specs.Prelude.{◌≡◌, ◌<◌, MatchOption, None, Some, length, slice_index_or};
ghost use Rattle.si_structure.specs.Laws.{IsPorted};
ghost use Rattle.si_structure.specs.StructureText as structure;
ghost use Rattle.si_structure.specs.StructureText.{ported_cells};
ghost use Rattle.si_structure.specs.Loops.Deciding.{no_ports, ported_at};

use crate::decide::{place_of, place_of_inverter};
use si_cell::cell::Cell;
use si_genlib::ports::{PortedLibrary, Ports};

/// The place of the first cell of the name, from 0.
pub(crate) fn cell_named(library: &PortedLibrary, name: &[u8]) -> Option<u8>
    ensures { MatchOption result
        (structure.cell_named (ported_cells library.now) name.now ≡ None)
        (λ k. (k < length library.now.library.cells)
        × (structure.cell_named (ported_cells library.now) name.now
        ≡ Some (ported_at library.now k))) }
{
    place_of(cells_of(library), name)
}

/// The place of the first inverter, from 0.
pub(crate) fn inverter_of(library: &PortedLibrary) -> Option<u8>
    ensures { MatchOption result (structure.inverter_of (ported_cells library.now) ≡ None)
        (λ k. (k < length library.now.library.cells)
        × (structure.inverter_of (ported_cells library.now) ≡ Some (ported_at library.now k))) }
{
    place_of_inverter(cells_of(library))
}

/// The cells of the library, and what holds of them and of the names of their ports.
fn cells_of(library: &PortedLibrary) -> &[Cell]
    ensures cells { result.now ≡ library.now.library.cells }
    ensures ported { IsPorted library.now }
{
    let cells = library.library().cells();
    let each_has_ports = library.ports().len() == cells.len();
    prove!(each_has_ports);
    cells
}

/// The names of the ports of the cell at that place.
pub(crate) fn ports_at(library: &PortedLibrary, k: u8) -> &Ports
    requires { k < length library.now.library.cells }
    ensures { result.now ≡ slice_index_or library.now.ports k no_ports }
{
    &library.ports()[k as usize]
}
