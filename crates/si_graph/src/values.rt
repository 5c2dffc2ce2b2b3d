//! Codes read off the arcs, and the first signal whose values don't suit these.

ghost use Rattle.std.specs.Prelude.{◌≡◌, ◌↔◌, ◌<◌, ℕ, All, IfOk, MatchOption, bit_xor, false};
ghost use Rattle.std.specs.Prelude.{length, map, slice_index};
ghost use Rattle.si_base.specs.Bits.{bit};
ghost use Rattle.si_base.specs.Codes.{IsConnected};
ghost use Rattle.si_base.specs.Graph.{IsGraph};
ghost use Rattle.si_base.specs.Limits.{code_width};
ghost use Rattle.si_graph.specs.Loops.Changes.{AreChanges};
ghost use Rattle.si_graph.specs.Loops.Values.{HasPlaces, IsFirstUnsuited, IsStartCode, SuitAll};
ghost use Rattle.si_graph.specs.Loops.Values.{Suits, TellsValues};

use crate::graph::Graph;
use crate::spread::changes_from_start;
use si_base::graph::Edge;
use si_base::ids::{Code, Event, NoMemory, Sig, StateId};
use std::alloc::Global;

/// The code of a state.
fn code_at(codes: &[Code], s: StateId) -> Code
    requires { s < length codes.now }
    ensures { result ≡ slice_index codes.now s }
{
    codes[s.0 as usize]
}

/// The codes that tell the values of each signal that has any.
pub fn told_codes(alloc: Global, graph: &Graph) -> Result<Vec<Code>, NoMemory>
    requires graph { IsGraph graph.now }
    requires connected { IsConnected graph.now }
    ensures count { IfOk result (λ codes. length codes.items ≡ graph.now.states) }
    ensures tells { IfOk result (λ codes. TellsValues graph.now codes.items) }
{
    let changes = changes_from_start(alloc, graph)?;
    let start = start_code(graph, changes.as_slice());
    shifted(alloc, changes.as_slice(), start)
}

/// The code of the start: the source of an arc shows the value of the arc's signal.
fn start_code(graph: &Graph, changes: &[Code]) -> Code
    requires { AreChanges graph.now changes.now }
    ensures { IsStartCode graph.now result }
{
    let mut start = Code(0);
    for arc in graph.arcs() {
        let sig = arc.event.sig;
        let value = code_at(changes, arc.from).get(sig) == arc.event.up;
        start = start.set(sig, value);
    }
    start
}

/// The code that a state has if the start has the code and the way there changes it so.
fn changed(start: Code, change: Code) -> Code
    ensures { result ≡ bit_xor change start }
{
    Code(change.0 ^ start.0)
}

/// The codes of all states, from that of the start and their changes.
fn shifted(alloc: Global, changes: &[Code], start: Code) -> Result<Vec<Code>, NoMemory>
    ensures { IfOk result
        (λ codes. codes.items ≡ map (λ change. bit_xor change start) changes.now) }
{
    let codes = changes.iter().map(|change| changed(start, *change));
    Ok(codes.collect(alloc)?)
}

/// A mask of the signals whose values in the two codes don't suit an arc by the event.
fn wrong_at(from: Code, to: Code, event: Event) -> u128
    requires { event.sig < code_width }
    ensures { (a : ℕ) → (bit result a ≡ false) ↔ Suits from to event a }
{
    let after = from.set(event.sig, event.up);
    let stuck = Code(0).set(event.sig, from.get(event.sig) == event.up);
    (after.0 ^ to.0) | stuck.0
}

/// A mask of the signals whose values in the codes don't suit some arc.
fn wrong_signals(arcs: &[Edge], codes: &[Code]) -> u128
    requires { All (HasPlaces codes.now) arcs.now }
    ensures { (a : ℕ) → (bit result a ≡ false) ↔ SuitAll arcs.now codes.now a }
{
    let mut wrong = 0;
    for arc in arcs {
        let from = code_at(codes, arc.from);
        let to = code_at(codes, arc.to);
        wrong |= wrong_at(from, to, arc.event);
    }
    wrong
}

/// The first signal whose values in the codes don't suit some arc.
pub fn first_wrong(arcs: &[Edge], codes: &[Code]) -> Option<Sig>
    requires { All (HasPlaces codes.now) arcs.now }
    ensures { MatchOption result ((a : ℕ) → SuitAll arcs.now codes.now a)
        (IsFirstUnsuited arcs.now codes.now) }
{
    let wrong = wrong_signals(arcs, codes);
    if wrong == 0 {
        return None;
    }
    Some(Sig(wrong.trailing_zeros() as u8))
}
