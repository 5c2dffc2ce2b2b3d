//! Signals that wait for a new one.

ghost use Rattle.std.specs.Prelude.{◌≡◌, ℕ, ◌<◌, Bool, false, true, length};
ghost use Rattle.si_base.specs.Bits.{bit};
ghost use Rattle.si_insert.specs.Insertion.{waits};
ghost use Rattle.si_insert.specs.Partition.{class_of};
ghost use Rattle.si_bounds.specs.Loops.Waiting.{ArcNeverWaits, MayWait, NeverWaits, Waits};

use si_base::graph::Edge;
use si_base::ids::Code;
use si_graph::graph::Graph;
use si_insert::partition::Class;

/// Whether an arc from a state of one class to a state of the other waits at some value of the new
/// signal.
fn may_wait(from: Class, to: Class) -> bool
    ensures never { result ≡ false → (value : Bool) → waits from to value ≡ false }
    ensures waits { result ≡ true → MayWait from to }
{
    match from {
        Class::Low | Class::High => false,
        Class::Rising => to != Class::Rising,
        Class::Falling => to != Class::Falling,
    }
}

/// Whether the arc waits at some value of the new signal.
fn arc_may_wait(classes: &[Class], a: &Edge) -> bool
    requires from { a.now.from < length classes.now }
    requires to { a.now.to < length classes.now }
    ensures never { result ≡ false → ArcNeverWaits classes.now a.now }
    ensures waits { result ≡ true
        → MayWait (class_of classes.now a.now.from) (class_of classes.now a.now.to) }
{
    let from = classes[a.from.0 as usize];
    let to = classes[a.to.0 as usize];
    may_wait(from, to)
}

/// The signals of which some arc waits for the new signal.
pub fn waiting_signals(graph: &Graph, classes: &[Class]) -> Code
    requires { length classes.now ≡ graph.now.states }
    ensures never { (z : ℕ) → bit result z ≡ false → NeverWaits graph.now classes.now z }
    ensures waits { (z : ℕ) → bit result z ≡ true → Waits graph.now classes.now z }
{
    let mut waiting = Code(0);
    for a in graph.arcs() {
        if !arc_may_wait(classes, a) {
            continue;
        }
        waiting = waiting.set(a.event.sig, true);
    }
    waiting
}
