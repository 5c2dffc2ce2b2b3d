//! The limit of hidden signals. The definitions have it under the same word, in
//! `specs/Limits.antt`.

/// The most hidden signals whose start values are searched for.
pub const MAX_HIDDEN: usize = 8;
