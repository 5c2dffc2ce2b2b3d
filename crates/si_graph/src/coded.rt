//! A graph with the codes of its states.

ghost use Rattle.std.specs.Prelude.{◌≡◌, ◌<◌, ◌↔◌, length, IfOk, IfErr, IsTrue};
ghost use Rattle.si_base.specs.Codes.{IsCoded, IsConnected, code, next_value};
ghost use Rattle.si_graph.specs.Excited.{IsExcitedAt};
ghost use Rattle.si_graph.specs.NextCodes.{IsNextCode};

use crate::determinism::first_split;
use crate::graph::Graph;
use crate::next_values::nexts_of;
use crate::values::{first_wrong, told_codes};
use si_base::ids::{Code, Event, NoMemory, Sig, StateId};
use std::alloc::Global;
use std::marker::Model;

/// A deterministic and consistent graph, each state of which is reachable, with the codes of its
/// states.
///
/// The next values of all signals at each state are kept as a code beside its own.
#[derive(Drop)]
pub struct Coded {
    graph: Graph,
    codes: Vec<Code>,
    nexts: Vec<Code>,
}

impl Model for Coded {
    ghost use Rattle.si_base.specs.Codes.{CodedGraph};
    ghost use Rattle.si_graph.specs.NextCodes.{AreCodesWithNexts};

    ghost Value = { CodedGraph };

    ghost view = { λ c. record { graph = c.graph; codes = c.codes.items } };

    ghost invariant = { λ c. AreCodesWithNexts
        (record { graph = c.graph; codes = c.codes.items }) c.nexts.items };
}

/// Why a graph has no codes.
#[derive(Clone, Copy, PartialEq, Eq, Debug)]
pub enum CodeFault {
    /// Out of memory.
    NoMemory,
    /// The state `s` leads by `e` to both `t` and `u`.
    Nondeterministic {
        s: StateId,
        e: Event,
        t: StateId,
        u: StateId,
    },
    /// No values of the signal suit the arcs.
    Inconsistent {
        sig: Sig,
    },
}

impl From<NoMemory> for CodeFault {
    ghost use Rattle.std.specs.Prelude.{◌≡◌};
    ghost use Rattle.si_graph.specs.declared.coded.CodeFault.TheVariants.{NoMemory};

    ghost from_gives = { λ _ e. e ≡ NoMemory };

    fn from(_e: NoMemory) -> CodeFault {
        CodeFault::NoMemory
    }
}

impl Coded {
    ghost use Rattle.si_graph.specs.Faults.{ShowsUncoded};

    /// The graph with its codes, or the first breach of determinism, or else of consistency (the
    /// book's consistent state assignment). The graph comes back.
    pub fn make(alloc: Global, graph: Graph) -> Result<Coded, (Graph, CodeFault)>
        requires { IsConnected graph }
        ensures same { IfOk result (λ c. c.graph ≡ graph) }
        ensures coded { IfOk result IsCoded }
        ensures back { IfErr result (λ e. e.0 ≡ graph) }
        ensures fault { IfErr result (λ e. ShowsUncoded graph e.1) }
    {
        let codes = match Coded::codes_of(alloc, &graph) {
            Ok(codes) => codes,
            Err(fault) => return Err((graph, fault)),
        };
        match nexts_of(alloc, &graph, codes.as_slice()) {
            Ok(nexts) => Ok(Coded {
                graph,
                codes,
                nexts,
            }),
            Err(NoMemory) => Err((graph, CodeFault::NoMemory)),
        }
    }

    /// The graph with these codes, of which it is known that they are its codes. It fails only
    /// where memory runs out.
    pub fn known(alloc: Global, graph: Graph, codes: Vec<Code>) -> Result<Coded, NoMemory>
        requires { IsCoded (record { graph = graph; codes = codes.items }) }
        ensures { IfOk result (λ c. c ≡ record { graph = graph; codes = codes.items }) }
    {
        let nexts = nexts_of(alloc, &graph, codes.as_slice())?;
        Ok(Coded {
            graph,
            codes,
            nexts,
        })
    }

    /// An equal graph with the same codes. It fails only where memory runs out.
    pub fn copy(&self, alloc: Global) -> Result<Coded, NoMemory>
        ensures { IfOk result (λ c. c ≡ self.now) }
    {
        let graph = self.graph.copy(alloc)?;
        let codes = Vec::from_slice(alloc, self.codes.as_slice())?;
        let nexts = Vec::from_slice(alloc, self.nexts.as_slice())?;
        Ok(Coded {
            graph,
            codes,
            nexts,
        })
    }

    /// The codes of the states, or the first breach of determinism, or else of consistency.
    fn codes_of(alloc: Global, graph: &Graph) -> Result<Vec<Code>, CodeFault>
        requires { IsConnected graph.now }
        ensures coded { IfOk result
            (λ codes. IsCoded (record { graph = graph.now; codes = codes.items })) }
        ensures fault { IfErr result (ShowsUncoded graph.now) }
    {
        if let Some((one, other)) = first_split(graph) {
            return Err(CodeFault::Nondeterministic {
                s: one.from,
                e: one.event,
                t: one.to,
                u: other.to,
            });
        }
        let arcs = graph.arcs();
        let codes = told_codes(alloc, graph)?;
        match first_wrong(arcs, codes.as_slice()) {
            Some(sig) => Err(CodeFault::Inconsistent { sig }),
            None => Ok(codes),
        }
    }

    /// The graph, and what holds of it and its codes.
    pub fn graph(&self) -> &Graph
        ensures same { result.now ≡ self.now.graph }
        ensures coded { IsCoded self.now }
    {
        &self.graph
    }

    /// The graph, without its codes.
    pub fn into_graph(self) -> Graph
        ensures { result ≡ self.graph }
    {
        let Coded { graph, .. } = self;
        graph
    }

    /// The code of a state: bit i is the value of signal i, and each bit past the last signal is 0.
    pub fn code(&self, s: StateId) -> Code
        requires { s < self.now.graph.states }
        ensures { result ≡ code self.now s }
    {
        self.codes[s.0 as usize]
    }

    /// The next values of all signals as a code: bit i is the next value of signal i, and each bit
    /// past the last signal is 0.
    pub fn next(&self, s: StateId) -> Code
        requires { s < self.now.graph.states }
        ensures { IsNextCode self.now s result }
    {
        self.nexts[s.0 as usize]
    }

    /// The next value of a signal: 1 if it is about to rise, or if it is 1 and not about to fall
    /// (the book's next-state function).
    pub fn next_value(&self, s: StateId, z: Sig) -> bool
        requires state { s < self.now.graph.states }
        requires signal { z < length self.now.graph.signals }
        ensures { result ≡ next_value self.now s z }
    {
        self.nexts[s.0 as usize].get(z)
    }

    /// Whether the signal is no input, and its next value differs from its value.
    pub fn excited(&self, s: StateId, z: Sig) -> bool
        requires state { s < self.now.graph.states }
        requires signal { z < length self.now.graph.signals }
        ensures { IsTrue result ↔ IsExcitedAt self.now s z }
    {
        self.graph.is_driven(z) && self.next_value(s, z) != self.code(s).get(z)
    }
}
