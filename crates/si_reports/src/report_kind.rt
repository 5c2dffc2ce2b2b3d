//! The reports on a graph.

/// What is told of a graph.
#[derive(Clone, Copy, PartialEq, Eq, Debug)]
pub enum Report {
    /// That it is proper, and its size.
    Summary,
    /// The regions of all events.
    Regions,
    /// How many conflicts it has, and the first of them.
    Conflicts,
    /// The covers and the monotonous cubes of its signals, or its first conflict.
    Covers,
    /// Its folded graph, as a canonical text: one state for each class of states that no walk tells
    /// apart.
    Fold,
    /// Its states, with their codes and the events that they enable, whether it is proper or not.
    States,
    /// How many conflicts it has, and the first of them explained: codes, enabled events, walks,
    /// and why no insertion resolves one, where that is known.
    Explain,
    /// Its picture, for Graphviz, whether it is proper or not.
    Dot,
    /// States that were dropped, dead ends, arcs of no return, disabled inputs and what else is
    /// worth a second look.
    Lint,
}

/// What is told of a proper graph alone.
#[derive(Clone, Copy, PartialEq, Eq, Debug)]
pub enum ProperReport {
    /// That it is proper, and its size.
    Summary,
    /// Its regions.
    Regions,
    /// Its conflicts.
    Conflicts,
    /// Its covers.
    Covers,
    /// Its folded graph.
    Fold,
    /// Its conflicts, explained.
    Explain,
}
