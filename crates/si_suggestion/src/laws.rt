//! Laws of the commands with suggested insertions. Each function does nothing: its contract is the
//! law.

ghost use Rattle.std.specs.Prelude.{ℕ, List};
ghost use Rattle.si_readings.specs.Laws.{HasResult};
ghost use Rattle.si_readings.specs.declared.library_format.LibraryFormat.{LibraryFormat};
ghost use Rattle.si_suggestion.specs.Suggested.{map_suggested, resolve_suggested};
ghost use Rattle.si_suggestion.specs.SuggestedLaws.{SuggestedAreRefusedAlike};
ghost use Rattle.si_suggestion.specs.SuggestedLaws.{SuggestedTextsServe, SuggestionsAreResolved};

/// The text of a graph after suggested insertions is read back as that graph, with its inserted
/// signals as internal ones, and gives the gates of a netlist to which `suggest` comes. There is
/// one just where `suggest` has a netlist, and it is refused so else.
pub fn suggested_texts_serve_as_given()
    ensures serve { SuggestedTextsServe }
    ensures resolved { SuggestionsAreResolved }
    ensures alike { SuggestedAreRefusedAlike }
{}

/// Each text comes to an answer.
pub fn suggested_insertions_end()
    ensures graphs { (file text : List ℕ) → HasResult (resolve_suggested file text) }
    ensures cells { (format : LibraryFormat) (graph graph_text library library_text : List ℕ)
        → HasResult (map_suggested format graph graph_text library library_text) }
{}
