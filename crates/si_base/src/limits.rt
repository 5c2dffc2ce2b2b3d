//! The limits of the tool. The definitions have them under the same words, in `specs/Limits.antt`.

/// How many signals a code has bits for.
pub const CODE_WIDTH: usize = 128;

/// The most signals of a graph or a netlist, inserted ones included.
pub const MAX_SIGNALS: usize = 128;

/// The most signals of a netlist text of version 1.
pub const MAX_SIGNALS_VERSION_1: usize = 64;

/// The most states of a graph that is read.
pub const MAX_STATES_READ: u32 = 262_144;

/// The most states of any graph, after insertion of signals too.
pub const MAX_STATES: u32 = 262_144;

/// The most distinct arcs of a graph that is read.
pub const MAX_ARCS_READ: usize = 1_048_576;

/// The most bytes of a text.
pub const MAX_TEXT: u64 = 16_777_216;
