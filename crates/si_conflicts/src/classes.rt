//! Classes of states, told for one state at a time.

ghost use Rattle.std.specs.Prelude.{◌≡◌, ◌<◌, List, length};
ghost use Rattle.si_insert.specs.declared.partition.Class.{Class};
ghost use Rattle.si_insert.specs.Partition.{class_of};

use si_base::ids::StateId;
use si_insert::partition::Class;

/// A class for each state. A count of conflicts asks for those of few states, so they need not be
/// written down.
pub trait Classes {
    ghost classes: { Self → List Class };

    /// The class of the state.
    fn class(&self, s: StateId) -> Class
        requires { s < length (classes self.now) }
        ensures { result ≡ class_of (classes self.now) s };
}

impl Classes for &[Class] {
    ghost classes = { λ list. list.now };

    fn class(&self, s: StateId) -> Class {
        self[s.0 as usize]
    }
}
