//! Laws of the texts of graphs after insertions. Each function does nothing: its contract is the
//! law.

ghost use Rattle.si_stages.specs.InsertedLaws.{InsertedTextsReadBack, MappedAreInserted};
ghost use Rattle.si_stages.specs.InsertedLaws.{ResolvedAreSynthesised, ResolvedTextsServe};
ghost use Rattle.si_stages.specs.InsertedLaws.{SynthesisedAreInserted};

/// The text of a resolved graph is read back as that graph, with its inserted signals as internal
/// ones, and gives the gates that the given graph gives.
pub fn resolved_texts_serve_as_given()
    ensures { ResolvedTextsServe }
{}

/// A graph is resolved to a text just where it is synthesised, and refused so else.
pub fn graphs_are_resolved_where_they_are_synthesised()
    ensures { ResolvedAreSynthesised }
{}

/// The insertions of a netlist that is synthesised from a graph, or that a graph is mapped to, are
/// taken; those of a synthesised one make the text of the resolved graph.
pub fn written_netlists_are_inserted()
    ensures synthesised { SynthesisedAreInserted }
    ensures mapped { MappedAreInserted }
{}

/// The text of a graph after the insertions of a netlist is read back as that graph, with its
/// inserted signals as internal ones.
pub fn inserted_texts_read_back()
    ensures { InsertedTextsReadBack }
{}
