//! Proper graphs: deterministic, consistent, commutative and output-persistent.

ghost use Rattle.std.specs.Prelude.{◌≡◌, IfOk, IfErr};
ghost use Rattle.si_base.specs.Proper.{IsProper};
ghost use Rattle.si_checks.specs.Faults.{told_breach};

use crate::breaches::{Breach, first_breach};
use crate::by_codes::is_proper_by_codes;
use crate::forks::Fork;
use crate::losses::Loss;
use si_base::ids::{Event, NoMemory, StateId};
use si_graph::coded::Coded;
use std::alloc::Global;
use std::marker::Model;

/// A proper graph with its codes.
#[derive(Drop)]
pub struct Proper {
    coded: Coded,
}

impl Model for Proper {
    ghost use Rattle.si_base.specs.Codes.{CodedGraph};
    ghost use Rattle.si_base.specs.Proper.{IsProper};

    ghost Value = { CodedGraph };

    ghost view = { λ p. p.coded };

    ghost invariant = { λ p. IsProper p.coded.graph };
}

/// Why a coded graph isn't proper.
#[derive(Clone, Copy, PartialEq, Eq, Debug)]
pub enum Improper {
    /// Out of memory.
    NoMemory,
    /// The state `s` leads by `a` and then `c` to `w`, and by `c` and then `a` to another state
    /// `w2`.
    Noncommutative {
        s: StateId,
        a: Event,
        c: Event,
        w: StateId,
        w2: StateId,
    },
    /// At `s` the event `by` disables the enabled non-input event `lost`.
    Nonpersistent {
        s: StateId,
        lost: Event,
        by: Event,
    },
}

impl Proper {
    ghost use Rattle.si_checks.specs.Faults.{ShowsImproper};

    /// The graph where it is proper, or the first breach of commutativity, or else of output
    /// persistency: the book's conditions for a speed-independent circuit, but that an input may
    /// be disabled. The coded graph comes back.
    ///
    /// Where the codes don't tell that it is proper, pairs of arcs are looked at.
    pub fn make(alloc: Global, coded: Coded) -> Result<Proper, (Coded, Improper)>
        ensures same { IfOk result (λ p. p ≡ coded) }
        ensures proper { IfOk result (λ p. IsProper p.graph) }
        ensures back { IfErr result (λ e. e.0 ≡ coded) }
        ensures fault { IfErr result (λ e. ShowsImproper coded.graph e.1) }
    {
        match is_proper_by_codes(alloc, &coded) {
            Ok(true) => return Ok(Proper { coded }),
            Ok(false) => {}
            Err(NoMemory) => return Err((coded, Improper::NoMemory)),
        }
        match first_breach(coded.graph()) {
            None => Ok(Proper { coded }),
            Some(breach) => Err((coded, improper_by(breach))),
        }
    }

    /// The graph, of which it is known that it is proper.
    pub fn known(coded: Coded) -> Proper
        requires { IsProper coded.graph }
        ensures { result ≡ coded }
    {
        Proper { coded }
    }

    /// An equal graph. It fails only where memory runs out.
    pub fn copy(&self, alloc: Global) -> Result<Proper, NoMemory>
        ensures { IfOk result (λ p. p ≡ self.now) }
    {
        Ok(Proper {
            coded: self.coded.copy(alloc)?,
        })
    }

    /// The coded graph.
    pub fn coded(&self) -> &Coded
        ensures same { result.now ≡ self.now }
        ensures proper { IsProper self.now.graph }
    {
        &self.coded
    }

    /// The coded graph, of which it is no longer known that it is proper.
    pub fn into_coded(self) -> Coded
        ensures { result ≡ self }
    {
        let Proper { coded } = self;
        coded
    }
}

/// What the breach tells.
fn improper_by(breach: Breach) -> Improper
    ensures { result ≡ told_breach breach }
{
    match breach {
        Breach::Fork(Fork { s, a, c, w, w2 }) => Improper::Noncommutative { s, a, c, w, w2 },
        Breach::Loss(Loss { s, lost, by }) => Improper::Nonpersistent { s, lost, by },
    }
}
