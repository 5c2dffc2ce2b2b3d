//! The limit of a cell's module. The definitions have it under the same word, in
//! `specs/Limits.antt`.

/// The most symbols behind the opening parenthesis of a cell's module: its expression is copied for
/// each instance.
pub const MAX_SYMBOLS: usize = 4096;
