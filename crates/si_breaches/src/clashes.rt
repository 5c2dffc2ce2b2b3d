//! Signals without values, each with two walks that give it two.

ghost use Rattle.std.specs.Prelude.{ℕ, List, ◌≡◌, ◌≢◌, ◌<◌, ◌↔◌, IfOk, IfSome, IsTrue};
ghost use Rattle.std.specs.Prelude.{length};
ghost use Rattle.si_base.specs.declared.ids.Event.{Event};
ghost use Rattle.si_checks.specs.Loops.Searches.{IsFirstOrNone, IsOneOrNone};
ghost use Rattle.si_told.specs.All.{AreAll, arc_place};
ghost use Rattle.si_breaches.specs.Breaches.{AreFirstWays, Differs, IsClash, IsClashing};
ghost use Rattle.si_breaches.specs.Breaches.{by_arc, clashing_place, is_odd};
ghost use mathlib.Core.Bool.{beq};
ghost use Rattle.si_breaches.specs.Loops.Breaches.{AreParities, IsSought};
ghost use Rattle.si_breaches.specs.Loops.Breaches.{IsSoughtWithin};
ghost use Rattle.si_breaches.specs.Loops.Breaches.{Meets};
ghost use Rattle.si_told.specs.Loops.Lines.{ArcIsWithin};
ghost use Rattle.si_walks.specs.Tree.{IsTree};

use crate::parities::parities;
use si_base::graph::Edge;
use si_base::ids::{Code, NoMemory, Sig, StateId};
use si_graph::graph::Graph;
use std::alloc::Global;

/// Two walks that give a signal two values.
#[derive(Clone, Copy, PartialEq, Eq, Debug)]
pub enum Clash {
    /// By the arc, and the first to its target: the one switches the signal an odd number of times,
    /// the other an even one.
    Torn(Edge),
    /// By either arc, both of the signal: what they tell of its value at the start differs.
    Apart(Edge, Edge),
}

/// A signal without values, and its clash.
#[derive(Clone, Copy, PartialEq, Eq, Debug)]
pub struct Clashing {
    pub sig: Sig,
    pub clash: Clash,
}

/// Which arcs are looked for.
#[derive(Clone, Copy, PartialEq, Eq, Debug)]
pub(crate) enum Sought {
    /// Those at which walks with both parities meet.
    Torn,
    /// Those of the signal.
    Own,
    /// Those of the signal that tell another value at the start than this one.
    Differing(Edge),
}

/// The signals without values, in signal order, each with its clash. It fails only where memory runs
/// out.
pub(crate) fn clashes(
    alloc: Global,
    graph: &Graph,
    last: &[Option<Edge>],
) -> Result<Vec<Clashing>, NoMemory>
    requires { IsTree graph.now last.now }
    ensures { IfOk result (λ found. (walk : ℕ → List Event) → AreFirstWays graph.now walk
        → AreAll clashing_place (IsClashing graph.now walk) found.items) }
{
    let _arcs = graph.arcs();
    let parities = parities(alloc, graph, last)?;
    let count = graph.signals().len() as u8;
    let mut found: Vec<Clashing> = Vec::new(alloc);
    for k in 0..count {
        if let Some(clash) = clash_of(graph, &parities, Sig(k)) {
            found.push(Clashing { sig: Sig(k), clash })?;
        }
    }
    Ok(found)
}

/// The clash of a signal, where it has no values.
fn clash_of(graph: &Graph, parities: &[Code], a: Sig) -> Option<Clash>
    requires signal { a < length graph.now.signals }
    requires parities { AreParities graph.now parities.now }
    ensures { (walk : ℕ → List Event) → AreFirstWays graph.now walk
        → IsOneOrNone (IsClash graph.now walk a) result }
{
    let _arcs = graph.arcs();
    if let Some(x) = first_arc(graph, parities, a, &Sought::Torn) {
        return Some(Clash::Torn(x));
    }
    let x = first_arc(graph, parities, a, &Sought::Own)?;
    let y = first_differing(graph, parities, a, &x)?;
    Some(Clash::Apart(x, y))
}

/// The first arc of a signal that tells another value of it at the start than this one.
fn first_differing(graph: &Graph, parities: &[Code], a: Sig, x: &Edge) -> Option<Edge>
    requires signal { a < length graph.now.signals }
    requires parities { AreParities graph.now parities.now }
    requires within { ArcIsWithin graph.now x.now }
    ensures { (walk : ℕ → List Event) → AreFirstWays graph.now walk
        → IsFirstOrNone arc_place (Differs graph.now walk a x.now) result }
{
    first_arc(graph, parities, a, &Sought::Differing(*x))
}

/// The first of the arcs that are looked for.
fn first_arc(graph: &Graph, parities: &[Code], a: Sig, sought: &Sought) -> Option<Edge>
    requires signal { a < length graph.now.signals }
    requires parities { AreParities graph.now parities.now }
    requires within { IsSoughtWithin graph.now sought.now }
    ensures within { IfSome result (ArcIsWithin graph.now) }
    ensures first { (walk : ℕ → List Event) → AreFirstWays graph.now walk
        → IsFirstOrNone arc_place (IsSought graph.now walk a sought.now) result }
{
    let arcs = graph.arcs();
    for x in arcs {
        if is_sought(graph, parities, a, sought, x) {
            return Some(*x);
        }
    }
    None
}

/// Whether the arc is one of those that are looked for.
fn is_sought(graph: &Graph, parities: &[Code], a: Sig, sought: &Sought, x: &Edge) -> bool
    requires signal { a < length graph.now.signals }
    requires parities { AreParities graph.now parities.now }
    requires within { IsSoughtWithin graph.now sought.now }
    requires arc { ArcIsWithin graph.now x.now }
    ensures { (walk : ℕ → List Event) → AreFirstWays graph.now walk
        → IsTrue result ↔ Meets walk a sought.now x.now }
{
    match sought {
        Sought::Torn => turned_by(graph, parities, a, x) != turned_at(graph, parities, a, x.to),
        Sought::Own => x.event.sig == a,
        Sought::Differing(y) => x.event.sig == a && tell_two(graph, parities, a, y, x),
    }
}

/// Whether two arcs of a signal tell two values of it at the start.
fn tell_two(graph: &Graph, parities: &[Code], a: Sig, y: &Edge, x: &Edge) -> bool
    requires signal { a < length graph.now.signals }
    requires parities { AreParities graph.now parities.now }
    requires one { ArcIsWithin graph.now y.now }
    requires other { ArcIsWithin graph.now x.now }
    ensures { (walk : ℕ → List Event) → AreFirstWays graph.now walk → IsTrue result
        ↔ (beq (is_odd a (by_arc walk y.now)) (is_odd a (by_arc walk x.now))
        ≢ beq y.now.event.up x.now.event.up) }
{
    let alike = turned_by(graph, parities, a, y) == turned_by(graph, parities, a, x);
    let same_end = y.event.up == x.event.up;
    alike != same_end
}

/// Whether the walk by the arc switches the signal an odd number of times.
fn turned_by(graph: &Graph, parities: &[Code], a: Sig, x: &Edge) -> bool
    requires signal { a < length graph.now.signals }
    requires parities { AreParities graph.now parities.now }
    requires arc { ArcIsWithin graph.now x.now }
    ensures { (walk : ℕ → List Event) → AreFirstWays graph.now walk
        → result ≡ is_odd a (by_arc walk x.now) }
{
    let own = x.event.sig == a;
    turned_at(graph, parities, a, x.from) != own
}

/// Whether the first walk to the state switches the signal an odd number of times.
fn turned_at(graph: &Graph, parities: &[Code], a: Sig, s: StateId) -> bool
    requires signal { a < length graph.now.signals }
    requires parities { AreParities graph.now parities.now }
    requires state { s < graph.now.states }
    ensures { (walk : ℕ → List Event) → AreFirstWays graph.now walk
        → result ≡ is_odd a (walk s) }
{
    let _arcs = graph.arcs();
    parities[s.0 as usize].get(a)
}
