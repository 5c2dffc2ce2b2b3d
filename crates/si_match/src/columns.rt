//! The truth tables of a cell over a few places, of which some of the first pins have literals: a
//! word has the values at all codes of the places.

ghost use Rattle.std.specs.Prelude.{◌≡◌, ℕ, ◌+◌, ◌/◌, ◌<◌, ◌≤◌, ◌^◌, ◌++◌, [], ◌∷◌, List};
ghost use Rattle.std.specs.Prelude.{if◌then◌else◌, length};
ghost use Rattle.si_base.specs.Bits.{bit};
ghost use Rattle.si_base.specs.Netlist.{literal_value};
ghost use Rattle.si_base.specs.declared.ids.Literal.{Literal};
ghost use Rattle.si_cell.specs.Library.{Cell as CellValue};
ghost use Rattle.si_cell.specs.Limits.{max_pins, table_codes};
ghost use Rattle.si_match.specs.Loops.Columns.{AreColumns};
ghost use Rattle.si_match.specs.Functions.{function_table, places};

use crate::functions::PLACES;
use arrayvec::ArrayVec;
use si_base::ids::{Code, Literal, Sig};
use si_cell::cell::{Cell, PinLiteral};
use si_cell::limits::MAX_PINS;

/// The most columns of a cell: how many codes all its pins and its own output have.
pub(crate) const MAX_COLUMNS: usize = 2 << MAX_PINS;

/// The values of each place at all codes of the places: bit m is the place's value at the code m.
const PLACE_COLUMNS: [u32; PLACES] = [
    0xaaaa_aaaa,
    0xcccc_cccc,
    0xf0f0_f0f0,
    0xff00_ff00,
    0xffff_0000,
];

/// The values of the place at all codes of the places.
fn place_column(place: Sig) -> u32
    requires { place < places }
    ensures { (m : ℕ) → m < table_codes → bit result m ≡ bit m place }
{
    PLACE_COLUMNS[place.0 as usize]
}

/// The values of the literal of a place at all codes of the places.
fn literal_column(literal: Literal) -> u32
    requires { literal.sig < places }
    ensures { (m : ℕ) → m < table_codes → bit result m ≡ literal_value m literal }
{
    let column = place_column(literal.sig);
    if literal.plain { column } else { !column }
}

/// The column of a value that is the same at all codes of the places.
fn constant_column(value: bool) -> u32
    ensures { (m : ℕ) → m < table_codes → bit result m ≡ value }
{
    if value { u32::MAX } else { 0 }
}

/// The values of the one column where the literal is false, those of the other where it is true.
fn merged(literal: u32, if_false: u32, if_true: u32) -> u32
    ensures { (m : ℕ) → bit result m ≡ (if bit literal m then bit if_true m else bit if_false m) }
{
    if_false ^ literal & (if_false ^ if_true)
}

/// How many codes these pins and the own output have.
fn column_count(pins: usize) -> u8
    requires { pins ≤ max_pins }
    ensures count { result ≡ 2 ^ (pins + 1) }
    ensures few { result ≤ table_codes }
{
    2 << pins
}

/// The columns of the cell before any pin has a literal: each has the cell's value at one code of
/// the pins and the own output.
pub(crate) fn columns_of(cell: &Cell) -> ArrayVec<u32, MAX_COLUMNS>
    requires { length cell.now.pins ≤ max_pins }
    ensures count { length result.items ≡ 2 ^ (length cell.now.pins + 1) }
    ensures columns { AreColumns cell.now [] result.items }
{
    let mut columns = ArrayVec::new();
    for code in 0..column_count(cell.pins.len()) {
        let value = cell.value(Code(u128::from(code)));
        columns.push(constant_column(value));
    }
    columns
}

/// The columns where one pin more has a literal.
pub(crate) fn with_literal(columns: &[u32], literal: PinLiteral) -> ArrayVec<u32, MAX_COLUMNS>
    requires few { length columns.now ≤ table_codes }
    requires place { literal.sig < places }
    ensures count { length result.items ≡ length columns.now / 2 }
    ensures columns { (cell : CellValue) (literals : List Literal)
        → AreColumns cell literals columns.now
        → AreColumns cell (literals ++ literal ∷ []) result.items }
{
    let at_codes = literal_column(literal.0);
    let mut chosen = ArrayVec::new();
    for rest in 0..columns.len() / 2 {
        chosen.push(merged(at_codes, columns[2 * rest], columns[2 * rest + 1]));
    }
    chosen
}

/// The truth table of the cell where each pin has a literal: its own output has the value of the
/// first place.
pub(crate) fn table_of(columns: &[u32]) -> u32
    requires { length columns.now ≡ 2 }
    ensures { (cell : CellValue) (literals : List Literal) → AreColumns cell literals columns.now
        → result ≡ function_table cell literals }
{
    let own = Literal {
        sig: Sig(0),
        plain: true,
    };
    merged(literal_column(own), columns[0], columns[1])
}
