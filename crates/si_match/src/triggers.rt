//! The trigger signals of a signal, and states that refute most gates for it.

ghost use Rattle.std.specs.Prelude.{◌≡◌, ◌≢◌, ℕ, ◌<◌, ◌↔◌, true, All, IsTrue, length};
ghost use Rattle.si_base.specs.Bits.{bit, flip};
ghost use Rattle.si_base.specs.Codes.{IsCoded, next_value};
ghost use Rattle.si_checks.specs.Loops.Lent.{coded_of};
ghost use Rattle.si_match.specs.Triggers.{AreTriggers, IsTrigger};

use crate::codes::cut;
use arrayvec::ArrayVec;
use si_base::graph::Edge;
use si_base::ids::{Code, Sig};
use si_checks::distinct::Distinct;
use si_graph::coded::Coded;

/// The most states that are kept.
pub const MAX_WITNESSES: usize = 32;

/// The triggers of a signal (the book's trigger signals), and, as far as there is room, for each of
/// them and each direction the ends of an arc across which the next value changes.
#[derive(Drop)]
pub struct Triggers {
    pub signals: Code,
    pub witnesses: ArrayVec<u32, MAX_WITNESSES>,
}

/// Whether the arc is of another signal than `z`, and the next value of `z`, the only signal in
/// `only`, changes across it.
fn changes(coded: &Coded, z: Sig, only: Code, a: &Edge) -> bool
    requires from { a.now.from < coded.now.graph.states }
    requires to { a.now.to < coded.now.graph.states }
    requires signal { z < length coded.now.graph.signals }
    requires only { only ≡ flip 0 z }
    ensures { IsTrue result ↔ ((a.now.event.sig ≢ z)
        × (next_value coded.now a.now.to z ≢ next_value coded.now a.now.from z)) }
{
    cut(coded.next(a.to), only) != cut(coded.next(a.from), only) && a.event.sig != z
}

/// Adds the ends of the arc to the states, if there is room.
fn add_ends(states: &mut ArrayVec<u32, MAX_WITNESSES>, a: &Edge)
    ensures { (count : ℕ) → a.now.from < count → a.now.to < count
        → All (λ s. s < count) states.old.items → All (λ s. s < count) states.new.items }
{
    if states.len() + 2 <= MAX_WITNESSES {
        states.push(a.from.0);
        states.push(a.to.0);
    }
}

/// The triggers of `z` (the book's trigger signals), a bit for each signal: the other signals whose
/// switching changes the next value of `z`. Each gate of `z` reads them all.
pub fn trigger_signals(graph: Distinct<'_>, z: Sig) -> Code
    requires { z < length (coded_of graph).graph.signals }
    ensures { (i : ℕ) → (bit result i ≡ true) ↔ IsTrigger (coded_of graph.entry) z i }
{
    triggers_of(graph.proper().coded(), z).signals
}

/// The triggers of `z`, and states beside their arcs.
pub fn triggers_of(coded: &Coded, z: Sig) -> Triggers
    requires { z < length coded.now.graph.signals }
    ensures coded { IsCoded coded.now }
    ensures triggers { AreTriggers coded.now z result.signals }
    ensures all { (i : ℕ) → IsTrigger coded.now z i → bit result.signals i ≡ true }
    ensures witnesses { All (λ s. s < coded.now.graph.states) result.witnesses.items }
{
    let graph = coded.graph();
    let only = Code(0).flip(z);
    let mut signals = Code(0);
    let (mut rising, mut falling) = (Code(0), Code(0));
    let mut witnesses = ArrayVec::new();
    for a in graph.arcs() {
        if !changes(coded, z, only, a) {
            continue;
        }
        let seen = if a.event.up { rising } else { falling };
        if seen.get(a.event.sig) {
            continue;
        }
        if a.event.up {
            rising = rising.set(a.event.sig, true);
        } else {
            falling = falling.set(a.event.sig, true);
        }
        signals = signals.set(a.event.sig, true);
        add_ends(&mut witnesses, a);
    }
    Triggers { signals, witnesses }
}
