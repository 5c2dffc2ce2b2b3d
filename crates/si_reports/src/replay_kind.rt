//! What is told of a schedule that is replayed to its end.

/// What is told of a schedule that is replayed to its end.
#[derive(Clone, Copy, PartialEq, Eq, Debug)]
pub enum ReplayReport {
    /// How many events there are, and where they end.
    End,
    /// The values of the signals from event to event, as a Value Change Dump.
    Wave,
}
