//! Laws of folding over texts. Each function does nothing: its contract is the law.

ghost use Rattle.si_stages.specs.FoldLaws.{FoldTextsAreMapped, FoldTextsAreSynthesised};
ghost use Rattle.si_stages.specs.FoldLaws.{FoldTextsReadBack};

/// The text that is written of a folded graph is read back as it.
pub fn fold_texts_read_back()
    ensures { FoldTextsReadBack }
{}

/// What is synthesised from the text of a folded graph, or mapped, implements the graph that was
/// folded.
pub fn fold_texts_serve_the_given_graph()
    ensures synthesised { FoldTextsAreSynthesised }
    ensures mapped { FoldTextsAreMapped }
{}
