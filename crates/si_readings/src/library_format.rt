//! The formats in which libraries are read.

use si_cell::pins::Pins;

/// In which format a library of cells is read, and which literals the pins of its instances may
/// have.
#[derive(Clone, Copy, PartialEq, Eq, Debug)]
pub enum LibraryFormat {
    /// The tool's own: a line for each cell, with its pins and its sum.
    Own(Pins),
    /// Genlib: a statement for each gate, with its output and an expression.
    Genlib(Pins),
}
