//! Laws of graphs. Each function does nothing: its contract is the law.

ghost use Rattle.si_graph.specs.Laws.{CodesAreUnique};

/// A graph has one code for each of its states.
pub fn codes_are_unique()
    ensures { CodesAreUnique }
{}
