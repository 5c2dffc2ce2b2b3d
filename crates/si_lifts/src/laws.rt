//! The laws of joining. Each function does nothing: its contract is the law.

ghost use Rattle.si_lifts.specs.Laws.{JoinedAreOfParts, JoinsAreRefusedSo};

/// Joining is refused where a part or the composed graph is, or for the use or the room of an
/// inserted signal, and for nothing else.
pub fn joins_are_refused_so()
    ensures { JoinsAreRefusedSo }
{}

/// A joined netlist has all gates of its parts, each over the signals of its part: it is the parts'
/// netlists, joined.
pub fn joined_netlists_are_of_parts()
    ensures { JoinedAreOfParts }
{}
