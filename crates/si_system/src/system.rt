//! The system of a coded graph and a netlist.

ghost use Rattle.std.specs.Prelude.{◌≡◌, ◌<◌, ◌+◌, ◌↔◌, IfOk, IsTrue, MatchResult, length};
ghost use Rattle.si_base.specs.System.{IsFor, start};

use crate::lists::first_difference;
use crate::step::{first_lost, place_after, reads_of};
use crate::verdict::Verdict;
use si_base::ids::{Code, Event, StateId};
use si_base::limits::MAX_SIGNALS;
use si_graph::coded::Coded;
use si_netlist::netlist::Netlist;
use std::marker::Model;

/// The graph's signals with their values at its start aren't the netlist's signals that aren't
/// inserted with theirs.
#[derive(Clone, Copy, PartialEq, Eq, Debug)]
pub struct ListsDiffer {
    /// The first place, from 1, at which name, kind or value differ, or at which one of the lists
    /// has ended.
    pub place: u32,
}

/// A netlist beside an environment that fires only inputs which the graph enables. One signal
/// switches at a time.
#[derive(Drop)]
pub struct System<'a> {
    graph: &'a Coded,
    netlist: &'a Netlist,
    // What the gate of each signal reads.
    reads: [Code; MAX_SIGNALS],
    values: Code,
    state: Option<StateId>,
}

impl<'a> Model for System<'a> {
    ghost use Rattle.si_system.specs.Loops.Reads.{AreReads};
    ghost use Rattle.si_system.specs.Verdict as verdict;

    ghost Value = { verdict.System };

    ghost view = { λ s. record {
      coded = s.graph.now;
      netlist = s.netlist.now;
      state = record { values = s.values; place = s.state };
    } };

    ghost invariant = { λ s. AreReads s.netlist.now s.reads };
}

impl<'a> System<'a> {
    ghost use Rattle.std.specs.Prelude.{MatchOption};
    ghost use Rattle.si_base.specs.System.{Fires};
    ghost use Rattle.si_system.specs.Lists.{ShowsDifference};
    ghost use Rattle.si_system.specs.Verdict.{IsStep, IsVerdict};

    /// The system at its start: the netlist's start values beside the graph's start.
    ///
    /// # Errors
    ///
    /// `ListsDiffer` exactly where the signals of the graph with their values at its start differ
    /// from the netlist's signals that aren't inserted with theirs.
    pub fn start(graph: &'a Coded, netlist: &'a Netlist) -> Result<System<'a>, ListsDiffer>
        ensures same { MatchResult result (λ _. IsFor graph.now netlist.now)
            (λ e. ShowsDifference graph.now netlist.now e.place) }
        ensures system { IfOk result (λ system. system ≡ record {
          coded = graph.now;
          netlist = netlist.now;
          state = start graph.now.graph netlist.now;
        }) }
    {
        match first_difference(graph, netlist) {
            None => Ok(System {
                graph,
                netlist,
                reads: reads_of(netlist),
                values: netlist.start(),
                state: Some(graph.graph().start()),
            }),
            Some(k) => Err(ListsDiffer {
                place: k as u32 + 1,
            }),
        }
    }

    /// The value of each signal.
    pub fn values(&self) -> Code
        ensures { result ≡ self.now.state.values }
    {
        self.values
    }

    /// The state of the graph; `None` exactly where the system is astray.
    pub fn state(&self) -> Option<StateId>
        ensures { result ≡ self.now.state.place }
    {
        self.state
    }

    /// The values and the place to which the event leads; `None` exactly where it is no step.
    fn next(&self, e: Event) -> Option<(Code, Option<StateId>)>
        requires { e.sig < length self.now.netlist.signals }
        ensures { MatchOption result
            (IsStep self.now.coded.graph self.now.netlist self.now.state e → ⊥)
            (λ y. Fires self.now.coded.graph self.now.netlist self.now.state e
            (record { values = y.0; place = y.1 })) }
    {
        let sig = e.sig;
        let signals = self.netlist.signals();
        let s = self.state()?;
        let values = self.values();
        if values.get(sig) == e.up {
            return None;
        }
        let kind = signals[sig.0 as usize].kind;
        let place = place_after(self.graph, self.netlist, kind, values, s, e)?;
        Some((values.flip(sig), place))
    }

    /// Whether the event is a step.
    pub fn can_fire(&self, e: Event) -> bool
        requires { e.sig < length self.now.netlist.signals }
        ensures { IsTrue result ↔ IsStep self.now.coded.graph self.now.netlist self.now.state e }
    {
        self.next(e).is_some()
    }

    /// Takes the step of the event, if it is one, and says what came of it.
    pub fn fire(&mut self, e: Event) -> Verdict
        requires { e.sig < length self.old.netlist.signals }
        ensures graph { self.new.coded ≡ self.old.coded }
        ensures netlist { self.new.netlist ≡ self.old.netlist }
        ensures verdict { IsVerdict self.old.coded.graph self.old.netlist
            self.old.state e result self.new.state }
    {
        let fired = e.sig;
        let Some((values, state)) = self.next(e) else {
            return Verdict::Blocked;
        };
        let verdict = match state {
            None => Verdict::Astray { sig: fired },
            Some(_) => match first_lost(self.netlist, &self.reads, self.values, values, fired) {
                Some(sig) => Verdict::Lost { sig },
                None => Verdict::Done,
            },
        };
        self.values = values;
        self.state = state;
        verdict
    }
}
