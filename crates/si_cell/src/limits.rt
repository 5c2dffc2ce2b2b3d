//! The limits of libraries. The definitions have them under the same words, in `specs/Limits.antt`.

/// The most cells of a library.
pub const MAX_CELLS: usize = 64;

/// The most pins of a cell.
pub const MAX_PINS: usize = 4;

/// How many codes the pins of a cell and its own output have: the bits of a truth table.
pub(crate) const TABLE_CODES: u8 = 32;
