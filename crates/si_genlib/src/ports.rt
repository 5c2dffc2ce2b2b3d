//! The names that other tools give to the ports of cells.

ghost use Rattle.std.specs.Prelude.{◌≡◌, IfOk, map};
ghost use Rattle.si_genlib.specs.Ports.{ArePorts, own_ports, with_own_ports};

use crate::write::OWN;
use si_base::ids::NoMemory;
use si_base::text::Name;
use si_cell::cell::Cell;
use si_cell::library::Library;
use std::alloc::Global;
use std::marker::Model;

/// The names of a cell's ports.
#[derive(Drop)]
pub struct Ports {
    /// Those of its pins, in their order.
    pub pins: Vec<Name>,
    pub output: Name,
}

impl Model for Ports {
    ghost use Rattle.si_genlib.specs.Ports as spec;

    ghost Value = { spec.Ports };

    ghost view = { λ p. record { pins = p.pins.items; output = p.output } };
}

/// A library with the names of the ports of its cells.
#[derive(Drop)]
pub struct PortedLibrary {
    library: Library,
    ports: Vec<Ports>,
}

impl Model for PortedLibrary {
    ghost use Rattle.si_genlib.specs.Ports as spec;

    ghost Value = { spec.PortedLibrary };

    ghost view = { λ p. record { library = p.library; ports = p.ports.items } };

    ghost invariant = { λ p. spec.ArePorts p.library.cells p.ports.items };
}

impl PortedLibrary {
    /// The library with these names of the ports of its cells.
    pub fn make(library: Library, ports: Vec<Ports>) -> PortedLibrary
        requires { ArePorts library.cells ports.items }
        ensures { result ≡ record { library = library; ports = ports.items } }
    {
        PortedLibrary { library, ports }
    }

    /// The library with the names that its cells themselves have: those of their pins, and `q`.
    /// It fails only where memory runs out.
    pub fn of_own(alloc: Global, library: Library) -> Result<PortedLibrary, NoMemory>
        ensures { IfOk result (λ ported. ported ≡ with_own_ports library) }
    {
        let ports = all_own_ports(alloc, library.cells())?;
        Ok(PortedLibrary::make(library, ports))
    }

    /// The library alone.
    pub fn into_library(self) -> Library
        ensures { result ≡ self.library }
    {
        self.library
    }

    /// The library. Its cells tell what holds of each library.
    pub fn library(&self) -> &Library
        ensures { result.now ≡ self.now.library }
    {
        &self.library
    }

    /// The names of the ports of each cell, in the order of the cells, and what holds of them.
    pub fn ports(&self) -> &[Ports]
        ensures same { result.now ≡ self.now.ports }
        ensures ports { ArePorts self.now.library.cells self.now.ports }
    {
        self.ports.as_slice()
    }
}

/// The names that each cell itself has.
fn all_own_ports(alloc: Global, cells: &[Cell]) -> Result<Vec<Ports>, NoMemory>
    ensures { IfOk result (λ ports. ports.items ≡ map own_ports cells.now) }
{
    let mut ports = Vec::new(alloc);
    for cell in cells {
        ports.push(ports_of_own(alloc, cell)?)?;
    }
    Ok(ports)
}

/// The names that the cell itself has: those of its pins, and `q`.
fn ports_of_own(alloc: Global, cell: &Cell) -> Result<Ports, NoMemory>
    ensures { IfOk result (λ ports. ports ≡ own_ports cell.now) }
{
    let pins = copies_of(alloc, &cell.pins)?;
    let output = Name::copy_of(alloc, OWN)?;
    Ok(Ports { pins, output })
}

/// Copies of the names.
fn copies_of(alloc: Global, names: &[Name]) -> Result<Vec<Name>, NoMemory>
    ensures { IfOk result (λ copies. copies.items ≡ names.now) }
{
    let mut copies = Vec::new(alloc);
    for name in names {
        copies.push(Name::copy_of(alloc, name.bytes())?)?;
    }
    Ok(copies)
}
