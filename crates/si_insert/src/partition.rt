//! Partitions of the states of a graph for the insertion of a signal, and why one isn't lawful.

ghost use Rattle.std.specs.Prelude.{◌≡◌, ℕ, ◌<◌, ◌↔◌, IfOk, IfErr, IsTrue, MatchOption, length};
ghost use Rattle.si_base.specs.declared.graph.Edge.{Edge};
ghost use Rattle.si_base.specs.Order.{IsFirst};
ghost use Rattle.si_insert.specs.Partition.{class_of, IsUnlawfulArc, edge_place};

use si_base::graph::Edge;
use si_base::ids::{Event, StateId};
use si_checks::proper::Proper;
use si_graph::graph::Graph;
use std::marker::Model;

/// The class of a state, by what the new signal does there.
#[derive(Clone, Copy, PartialEq, Eq, Debug)]
pub enum Class {
    /// It is 0.
    Low,
    /// It rises.
    Rising,
    /// It is 1.
    High,
    /// It falls.
    Falling,
}

impl Class {
    ghost use Rattle.std.specs.Prelude.{◌≡◌, ◌≤◌, ◌∷◌, []};
    ghost use Rattle.si_insert.specs.Accepted.{copy_count};
    ghost use Rattle.si_insert.specs.Insertion as insertion;
    ghost use Rattle.si_insert.specs.GraphOfCopies as made;
    ghost use Rattle.si_insert.specs.Partition.{may_lead};

    /// Whether an arc may lead from a state of the class to one of the other.
    fn may_lead_to(self, to: Class) -> bool
        ensures { result ≡ may_lead self to }
    {
        match self {
            Class::Low => matches!(to, Class::Low | Class::Rising),
            Class::Rising => to != Class::Low,
            Class::High => matches!(to, Class::High | Class::Falling),
            Class::Falling => to != Class::High,
        }
    }

    /// Whether a state of the class has a copy at the value.
    pub(crate) fn has_copy(self, value: bool) -> bool
        ensures { result ≡ insertion.has_copy self value }
    {
        match self {
            Class::Low => !value,
            Class::High => value,
            Class::Rising | Class::Falling => true,
        }
    }

    /// How many copies a state of the class has.
    pub(crate) fn copies(self) -> u32
        ensures is { result ≡ copy_count (self ∷ []) }
        ensures few { result ≤ 2 }
    {
        match self {
            Class::Low | Class::High => 1,
            Class::Rising | Class::Falling => 2,
        }
    }

    /// Whether an arc from a state of the class to one of the other waits, at the value, for the
    /// new signal to switch.
    pub(crate) fn waits(self, to: Class, value: bool) -> bool
        ensures { result ≡ insertion.waits self to value }
    {
        match self {
            Class::Rising => to != Class::Rising && !value,
            Class::Falling => to != Class::Falling && value,
            Class::Low | Class::High => false,
        }
    }

    /// The value of the new signal with which states of the class are entered.
    pub(crate) fn entry(self) -> bool
        ensures { result ≡ insertion.entry self }
    {
        matches!(self, Class::High | Class::Falling)
    }

    /// Whether the new signal may switch in that direction at states of the class.
    pub fn switches(self, up: bool) -> bool
        ensures { result ≡ made.switches up self }
    {
        match self {
            Class::Rising => up,
            Class::Falling => !up,
            Class::Low | Class::High => false,
        }
    }
}

/// Why classes are no lawful partition.
#[derive(Clone, Copy, PartialEq, Eq, Debug)]
pub enum Unlawful {
    /// No state is Rising.
    NoRise,
    /// No state is Falling.
    NoFall,
    /// The arc from `s` by `e` to `t` leads between classes between which none may lead.
    Arc { s: StateId, e: Event, t: StateId },
}

/// A class for each state of a graph. Contracts see it as the list of the classes.
#[derive(Drop)]
pub struct Partition {
    classes: Vec<Class>,
}

impl Model for Partition {
    ghost use Rattle.std.specs.Prelude.{List};
    ghost use Rattle.si_insert.specs.declared.partition.Class.{Class};

    ghost Value = { List Class };

    ghost view = { λ p. p.classes.items };
}

/// Whether some state has the class.
fn has(classes: &[Class], c: Class) -> bool
    ensures { IsTrue result ↔ ((s : ℕ) × (s < length classes.now) × (class_of classes.now s ≡ c)) }
{
    for d in classes {
        if *d == c {
            return true;
        }
    }
    false
}

/// The first unlawful arc.
fn unlawful_arc(graph: &Graph, classes: &[Class]) -> Option<Edge>
    requires { length classes.now ≡ graph.now.states }
    ensures { MatchOption result ((a : Edge) → IsUnlawfulArc graph.now classes.now a → ⊥)
        (IsFirst edge_place (IsUnlawfulArc graph.now classes.now)) }
{
    for a in graph.arcs() {
        if !classes[a.from.0 as usize].may_lead_to(classes[a.to.0 as usize]) {
            return Some(*a);
        }
    }
    None
}

impl Partition {
    ghost use Rattle.si_insert.specs.Partition.{IsLawful, ShowsUnlawful};

    /// The classes of the states, in state order.
    pub fn classes(&self) -> &[Class]
        ensures { result.now ≡ self.now }
    {
        self.classes.as_slice()
    }

    /// The partition of these classes, of which it is known that it is lawful for the graph.
    pub fn known(graph: &Proper, classes: Vec<Class>) -> Partition
        requires { IsLawful graph.now.graph classes.items }
        ensures { result ≡ classes.items }
    {
        let _ = graph;
        Partition { classes }
    }

    /// The class of a state.
    pub fn class(&self, s: StateId) -> Class
        requires { s < length self.now }
        ensures { result ≡ class_of self.now s }
    {
        self.classes[s.0 as usize]
    }

    /// The partition of these classes where it is lawful (the book's conditions for an insertion by
    /// a partition of the states), or the first reason why it isn't. The classes come back.
    pub fn lawful(graph: &Proper, classes: Vec<Class>) -> Result<Partition, (Vec<Class>, Unlawful)>
        requires { length classes.items ≡ graph.now.graph.states }
        ensures same { IfOk result (λ p. p ≡ classes.items) }
        ensures lawful { IfOk result (IsLawful graph.now.graph) }
        ensures back { IfErr result (λ e. e.0 ≡ classes) }
        ensures fault { IfErr result (λ e. ShowsUnlawful graph.now.graph classes.items e.1) }
    {
        if !has(&classes, Class::Rising) {
            return Err((classes, Unlawful::NoRise));
        }
        if !has(&classes, Class::Falling) {
            return Err((classes, Unlawful::NoFall));
        }
        match unlawful_arc(graph.coded().graph(), &classes) {
            Some(a) => Err((
                classes,
                Unlawful::Arc {
                    s: a.from,
                    e: a.event,
                    t: a.to,
                },
            )),
            None => Ok(Partition { classes }),
        }
    }
}
