//! Laws of current graphs as given ones. Each function does nothing: its contract is the law.

ghost use Rattle.si_inserted.specs.Laws.{CurrentTextsReadBack, InternalAreDistinct};
ghost use Rattle.si_inserted.specs.Laws.{InternalAreProper, InternalHaveSameGates};

/// The text of a lineage's current graph is read back as that graph: its states have distinct names
/// in the form of a text.
pub fn current_texts_read_back()
    ensures { CurrentTextsReadBack }
{}

/// A graph whose inserted signals become internal ones keeps its codes, stays proper and without
/// conflicts, and the same gates are chosen for it.
pub fn internal_signals_serve_as_inserted()
    ensures proper { InternalAreProper }
    ensures distinct { InternalAreDistinct }
    ensures gates { InternalHaveSameGates }
{}
