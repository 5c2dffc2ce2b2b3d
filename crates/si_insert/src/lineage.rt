//! A given graph with accepted insertions, one after another.

ghost use Rattle.std.specs.Prelude.{◌≡◌, ℕ, ◌+◌, ◌^◌, ◌<◌, ◌≤◌, [], ◌∷◌, ◌++◌, IfOk};
ghost use Rattle.std.specs.Prelude.{IfErr, All, length, map, slice_index};
ghost use Rattle.std.specs.List.{range_with_len};
ghost use Rattle.si_base.specs.Bits.{bit};
ghost use Rattle.si_base.specs.Codes.{code};
ghost use Rattle.si_base.specs.Limits.{max_signals};
ghost use Rattle.si_insert.specs.Accepted.{IsAccepted};
ghost use Rattle.si_insert.specs.Fresh.{IsTaken};
ghost use Rattle.si_insert.specs.Lineage.{AllGiven, Extends, Inserts, IsLineage, Keeps};
ghost use Rattle.si_insert.specs.Lineage.{given_history, origin};

use crate::accept::Accepted;
use crate::apply::{WithCopies, apply_with_copies};
use crate::partition::Partition;
use crate::state_copies::StateCopy;
use si_base::ids::{Code, NoMemory, StateId};
use si_base::text::Name;
use si_checks::proper::Proper;
use std::alloc::Global;
use std::marker::Model;

/// An insertion of a lineage: the name of the new signal, and its partition.
#[derive(Drop)]
pub struct TraceStep {
    pub name: Name,
    pub partition: Partition,
}

/// A given proper graph without inserted signals, the insertions, and the graph that they make.
///
/// Contracts see it as a `History`. What insertions keep is a fact of each lineage: `current` hands
/// it out.
#[derive(Drop)]
pub struct Lineage {
    given: Proper,
    current: Proper,
    origins: Vec<StateId>,
    trace: Vec<TraceStep>,
}

impl Model for Lineage {
    ghost use Rattle.si_insert.specs.Lineage.{IsLineage, History};

    ghost Value = { History };

    ghost view = { λ l. record {
      given = l.given;
      trace = l.trace.items;
      current = record { coded = l.current; origins = l.origins.items };
    } };

    ghost invariant = { λ l. IsLineage l.given l.trace.items
        (record { coded = l.current; origins = l.origins.items }) };
}

impl Lineage {
    /// The lineage of a graph into which nothing is inserted yet. After want of memory the graph
    /// comes back.
    pub fn start(alloc: Global, graph: Proper) -> Result<Lineage, (Proper, NoMemory)>
        requires { AllGiven graph.graph.signals }
        ensures line { IfOk result (λ l. l ≡ given_history graph) }
        ensures back { IfErr result (λ e. e.0 ≡ graph) }
    {
        let Ok(current) = graph.copy(alloc) else {
            return Err((graph, NoMemory));
        };
        let states = current.coded().graph().states();
        let Ok(origins) = own_origins(alloc, states) else {
            return Err((graph, NoMemory));
        };
        Ok(Lineage {
            given: graph,
            current,
            origins,
            trace: Vec::new(alloc),
        })
    }

    /// The lineage with one more insertion, by the partition and with the name of the new signal.
    ///
    /// After want of memory the lineage and the partition come back, and the name is given up.
    pub fn insert(
        self,
        alloc: Global,
        accepted: Accepted,
        name: Name,
    ) -> Result<Lineage, (Lineage, Accepted, NoMemory)>
        requires accepted { IsAccepted self.current.coded.graph accepted }
        requires new { ¬ IsTaken self.current.coded.graph.signals name }
        ensures line { IfOk result (Extends self (record { name = name; partition = accepted })) }
        ensures back { IfErr result (λ e. (e.0 ≡ self) × (e.1 ≡ accepted)) }
    {
        let origins = self.origins.as_slice();
        let Ok(next) = grow(alloc, &self.current, origins, &accepted, &name) else {
            return Err((self, accepted, NoMemory));
        };
        let Lineage {
            given,
            current,
            origins,
            trace,
        } = self;
        let partition = accepted.into_partition();
        match with_step(trace, TraceStep { name, partition }) {
            Ok(trace) => Ok(Lineage {
                given,
                current: next.graph,
                origins: next.origins,
                trace,
            }),
            Err((trace, partition)) => {
                let lineage = Lineage {
                    given,
                    current,
                    origins,
                    trace,
                };
                Err((lineage, Accepted::of(partition), NoMemory))
            }
        }
    }

    /// The given graph.
    pub fn given(&self) -> &Proper
        ensures same { result.now ≡ self.now.given }
        ensures given { AllGiven self.now.given.graph.signals }
    {
        &self.given
    }

    /// The current graph, and what insertions keep.
    pub fn current(&self) -> &Proper
        ensures same { result.now ≡ self.now.current.coded }
        ensures kept { Keeps self.now.given self.now.current }
    {
        &self.current
    }

    /// The insertions, in their order, and that they make the current graph of the given one.
    pub fn trace(&self) -> &[TraceStep]
        ensures same { result.now ≡ self.now.trace }
        ensures made { IsLineage self.now.given self.now.trace self.now.current }
    {
        self.trace.as_slice()
    }

    /// The given state from which a state comes.
    pub fn origin(&self, p: StateId) -> StateId
        requires { p < self.now.current.coded.graph.states }
        ensures { result ≡ origin self.now.current p }
    {
        self.origins[p.0 as usize]
    }

    /// The values of the inserted signals at a state: bit k is that of inserted signal number k,
    /// counted from 0 in order of insertion.
    pub fn bits(&self, p: StateId) -> Code
        requires { p < self.now.current.coded.graph.states }
        ensures { let given = length self.now.given.graph.signals in
            (k : ℕ) → bit result k ≡ bit (code self.now.current.coded p) (given + k) }
    {
        let current = self.current.coded();
        let given = self.given.coded().graph().signals().len();
        let now = current.graph().signals().len();
        from_bit(current.code(p), given, now)
    }
}

/// The bits from the n-th on, in the code of a state of a graph with so many signals.
fn from_bit(code: Code, n: usize, signals: usize) -> Code
    requires fits { code < 2 ^ signals }
    requires few { signals ≤ max_signals }
    ensures { (k : ℕ) → bit result k ≡ bit code (n + k) }
{
    if n < signals {
        Code(code.0 >> n)
    } else {
        Code(0)
    }
}

/// Each of so many states its own origin.
fn own_origins(alloc: Global, states: u32) -> Result<Vec<StateId>, NoMemory>
    ensures { IfOk result (λ origins. origins.items ≡ range_with_len 0 states) }
{
    let mut origins = Vec::new(alloc);
    for s in 0..states {
        origins.push(StateId(s))?;
    }
    Ok(origins)
}

/// A graph with one more signal, and the given state from which each of its states comes.
#[derive(Drop)]
struct Grown {
    graph: Proper,
    origins: Vec<StateId>,
}

/// The graph with the new signal of that name, and the origins of its states.
fn grow(
    alloc: Global,
    graph: &Proper,
    origins: &[StateId],
    accepted: &Accepted,
    name: &Name,
) -> Result<Grown, NoMemory>
    requires accepted { IsAccepted graph.now.graph accepted.now }
    requires new { ¬ IsTaken graph.now.graph.signals name.now }
    requires count { length origins.now ≡ graph.now.graph.states }
    ensures { IfOk result (λ next. Inserts (record { coded = graph.now; origins = origins.now })
        (record { name = name.now; partition = accepted.now })
        (record { coded = next.graph; origins = next.origins.items })) }
{
    let WithCopies { graph, copies } = apply_with_copies(alloc, graph, accepted, name)?;
    let origins = origins_of(alloc, origins, copies.as_slice())?;
    Ok(Grown { graph, origins })
}

/// The origins of the copies: those of their states.
fn origins_of(
    alloc: Global,
    origins: &[StateId],
    copies: &[StateCopy],
) -> Result<Vec<StateId>, NoMemory>
    requires { All (λ x. x.state < length origins.now) copies.now }
    ensures { IfOk result
        (λ next. next.items ≡ map (λ x. slice_index origins.now x.state) copies.now) }
{
    let mut next = Vec::new(alloc);
    for x in copies {
        next.push(origins[x.state.0 as usize])?;
    }
    Ok(next)
}

/// The trace with one more step. After want of memory the trace and the partition come back.
fn with_step(
    trace: Vec<TraceStep>,
    step: TraceStep,
) -> Result<Vec<TraceStep>, (Vec<TraceStep>, Partition)>
    ensures more { IfOk result (λ t. t.items ≡ trace.items ++ step ∷ []) }
    ensures back { IfErr result (λ e. (e.0.items ≡ trace.items) × (e.1 ≡ step.partition)) }
{
    let mut trace = trace;
    match trace.push(step) {
        Ok(()) => Ok(trace),
        Err(refused) => {
            let TraceStep { partition, .. } = refused.value;
            Err((trace, partition))
        }
    }
}
