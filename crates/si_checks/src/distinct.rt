//! Proper graphs without conflicts, that is, with complete state coding.

ghost use Rattle.std.specs.Prelude.{◌≡◌, IfOk, IfErr};
ghost use Rattle.si_base.specs.Proper.{HasNoConflict};

use crate::conflicts::first_conflict;
use crate::proper::Proper;
use si_base::ids::{NoMemory, StateId};
use std::alloc::Global;

/// A loan of a proper graph without conflicts.
#[derive(Clone, Copy)]
pub struct Distinct<'a> {
    graph: &'a Proper,
    ghost distinct: { HasNoConflict graph.now },
}

/// Why a graph isn't distinct.
#[derive(Clone, Copy, PartialEq, Eq, Debug)]
pub enum NotDistinct {
    /// Out of memory.
    NoMemory,
    /// The states `p` and `q`, the earlier first, have one code and enable different non-input
    /// events.
    Conflict { p: StateId, q: StateId },
}

impl<'a> Distinct<'a> {
    ghost use Rattle.si_checks.specs.Faults.{ShowsConflict};
    ghost use Rattle.si_checks.specs.Loops.Lent.{coded_of};

    /// The graph where it has no conflict (the book's complete state coding), or its first
    /// conflict.
    pub fn make(alloc: Global, graph: &'a Proper) -> Result<Distinct<'a>, NotDistinct>
        ensures same { IfOk result (λ d. coded_of d ≡ graph.now) }
        ensures distinct { IfOk result (λ d. HasNoConflict graph.now) }
        ensures fault { IfErr result (ShowsConflict graph.now) }
    {
        match first_conflict(alloc, graph.coded()) {
            Ok(None) => Ok(Distinct { graph }),
            Ok(Some((p, q))) => Err(NotDistinct::Conflict { p, q }),
            Err(NoMemory) => Err(NotDistinct::NoMemory),
        }
    }

    /// The graph, of which it is known that it has no conflict.
    pub fn known(graph: &'a Proper) -> Distinct<'a>
        requires { HasNoConflict graph.now }
        ensures { coded_of result ≡ graph.now }
    {
        Distinct { graph }
    }

    /// The proper graph.
    pub fn proper(&self) -> &Proper
        ensures same { result.now ≡ coded_of self.now }
        ensures distinct { HasNoConflict (coded_of self.now) }
    {
        self.graph
    }
}
