//! The functions of a library's cells, as truth tables.

ghost use Rattle.std.specs.Prelude.{◌≡◌, ◌↔◌, ℕ, ◌+◌, ◌≤◌, ◌^◌, ◌++◌, List, Contains, OnOk, IfOk};
ghost use Rattle.std.specs.Prelude.{length, map};
ghost use Rattle.si_base.specs.declared.ids.Literal.{Literal};
ghost use Rattle.si_cell.specs.Limits.{max_pins};
ghost use Rattle.si_cell.specs.Library.{Cell as CellValue, IsLibrary};
ghost use Rattle.si_match.specs.Loops.Columns.{AreColumns};
ghost use Rattle.si_match.specs.Fit.{lists_of, literals_for};
ghost use Rattle.si_match.specs.Functions.{AreFunctions, function_table, function_tables, places};

use crate::columns::{columns_of, table_of, with_literal};
use crate::search::{literal_at, literal_count};
use si_base::ids::NoMemory;
use si_cell::library::Library;
use si_cell::limits::MAX_PINS;
use si_cell::pins::Pins;
use std::alloc::Global;
use std::marker::Model;

/// A place for each pin, and the first, which is that of the signal that a gate drives.
pub(crate) const PLACES: usize = MAX_PINS + 1;

/// A library, and the truth tables of what its cells compute over a few places. Contracts see the
/// library.
#[derive(Drop)]
pub struct LibraryFunctions<'a> {
    library: &'a Library,
    tables: Vec<u32>,
}

impl<'a> Model for LibraryFunctions<'a> {
    ghost use Rattle.si_cell.specs.Library as spec;
    ghost use Rattle.si_cell.specs.Library.{IsLibrary};
    ghost use Rattle.si_match.specs.Functions.{AreFunctions};

    ghost Value = { spec.Library };

    ghost view = { λ f. f.library.now };

    ghost invariant = { λ f. AreFunctions f.library.now f.tables.items × IsLibrary f.library.now };
}

impl<'a> LibraryFunctions<'a> {
    /// The library with the functions of its cells. It fails only where memory runs out.
    pub fn of(alloc: Global, library: &'a Library) -> Result<LibraryFunctions<'a>, NoMemory>
        ensures { IfOk result (λ functions. functions ≡ library.now) }
    {
        let all = all_tables(alloc, library)?;
        let tables = each_once(all);
        Ok(LibraryFunctions { library, tables })
    }

    /// The library.
    pub fn library(&self) -> &'a Library
        ensures { result.now ≡ self.now }
    {
        self.library
    }

    /// The truth tables.
    pub fn tables(&self) -> &[u32]
        ensures tables { AreFunctions self.now result.now }
        ensures library { IsLibrary self.now }
    {
        self.tables.as_slice()
    }
}

/// Each of these tables once, in ascending order.
fn each_once(tables: Vec<u32>) -> Vec<u32>
    ensures { (t : ℕ) → Contains result.items t ↔ Contains tables.items t }
{
    let mut tables = tables;
    tables.sort_unstable();
    tables.dedup();
    tables
}

/// The truth tables of all instances of the library over the places.
fn all_tables(alloc: Global, library: &Library) -> Result<Vec<u32>, NoMemory>
    ensures tables { IfOk result (λ tables. tables.items ≡ function_tables library.now) }
    ensures library { IsLibrary library.now }
{
    let allowed = library.pins();
    let mut tables = Vec::new(alloc);
    for k in 0..library.cells().len() {
        let cell = library.cell(k as u8);
        let columns = columns_of(cell);
        add_tables(&mut tables, allowed, columns.as_slice(), cell.pins.len())?;
    }
    Ok(tables)
}

/// Adds the truth tables of the cell that has these columns, with each choice of allowed literals
/// of places at its last pins, so many.
fn add_tables(
    tables: &mut Vec<u32>,
    allowed: Pins,
    columns: &[u32],
    more: usize,
) -> Result<(), NoMemory>
    requires few { more ≤ max_pins }
    requires count { length columns.now ≡ 2 ^ (more + 1) }
    ensures { OnOk result ((cell : CellValue) (literals : List Literal)
        → AreColumns cell literals columns.now
        → tables.new.items ≡ tables.old.items
        ++ map (λ rest. function_table cell (literals ++ rest))
        (lists_of more (literals_for allowed places))) }
{
    if more == 0 {
        tables.push(table_of(columns))?;
        return Ok(());
    }
    for place in 0..literal_count(allowed, PLACES) {
        let chosen = with_literal(columns, literal_at(allowed, place));
        add_tables(tables, allowed, chosen.as_slice(), more - 1)?;
    }
    Ok(())
}
