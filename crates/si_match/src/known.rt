//! What is known of the fits of signals.

ghost use Rattle.std.specs.Prelude.{◌≡◌, ◌<◌};
ghost use Rattle.si_base.specs.Codes.{CodedGraph, IsCoded};
ghost use Rattle.si_base.specs.Limits.{code_width};
ghost use Rattle.si_cell.specs.Library.{Library};
ghost use Rattle.si_match.specs.Loops.Known.{AreKnown};

use si_base::ids::{Code, Sig};
use si_base::limits::CODE_WIDTH;

/// What is known of the fits of the signals of a graph before an instance is looked for, as after
/// an insertion. Nothing is known of those that are `unknown`. Of the others, those that are
/// `fitted` fit some cell, and an instance that fits one of the rest reads the signal `read`.
#[derive(Clone, Copy, PartialEq, Eq, Debug)]
pub struct KnownFits {
    pub unknown: Code,
    pub fitted: Code,
    pub read: Sig,
}

impl KnownFits {
    /// Nothing, of any signal.
    pub fn nothing() -> KnownFits
        ensures known { (c : CodedGraph) (library : Library) → IsCoded c
            → AreKnown c library result }
        ensures none { result.fitted ≡ 0 }
        ensures read { result.read < code_width }
    {
        KnownFits {
            unknown: Code::ones(CODE_WIDTH),
            fitted: Code(0),
            read: Sig(0),
        }
    }
}
