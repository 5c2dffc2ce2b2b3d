//! What comes of firing an event.

use si_base::ids::Sig;

/// What came of firing an event.
#[derive(Clone, Copy, PartialEq, Eq, Debug)]
pub enum Verdict {
    /// The step was taken.
    Done,
    /// The event was no step; nothing changed.
    Blocked,
    /// The step of a given non-input was taken, and the graph has no arc for it.
    Astray { sig: Sig },
    /// The step was taken, and the gate of another signal, the first such, was excited before it
    /// and isn't after it.
    Lost { sig: Sig },
}
