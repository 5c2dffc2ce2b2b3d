//! The limits of sums that are multiplied out. The definitions have them under the same words, in
//! `specs/Limits.antt`.

/// The most cubes of a sum.
pub const MAX_CUBES: usize = 65_536;

/// The most pairs of cubes, one of each of two sums, of which the products are taken.
pub const MAX_PAIRS: usize = 1024;
