//! Laws of commands over texts of graphs with a conflict that input events join. The function does
//! nothing: its contract is the law.

ghost use Rattle.si_stages.specs.UnresolvedLaws.{SynthEndsUnresolved, MapEndsUnresolved};

/// For a text that gives a proper graph with a conflict that input events join, `synth` in each
/// style and `map` to each library end unresolved, and in no other way, since texts come to one
/// answer.
pub fn joined_conflicts_end_unresolved()
    ensures synth { SynthEndsUnresolved }
    ensures map { MapEndsUnresolved }
{}
