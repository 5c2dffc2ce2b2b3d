//! Event order and the order of arcs.
//!
//! Both are written by hand, since the derived order of `bool` would put `-` before `+`.

use crate::graph::Edge;
use crate::ids::Event;
use std::cmp::Ordering;

impl Ord for Event {
    ghost use Rattle.std.proofs.Common.{rules};
    ghost use Rattle.std.specs.Cmp.Rules.{comparing};
    ghost use Rattle.si_base.specs.EdgeOrder.{event_cmp};

    ghost cmp = { event_cmp };

    ghost total = { Prim.search (comparing, rules) depth 9 };

    ghost matches_partial_cmp = { Prim.search (comparing, rules) depth 9 };

    ghost matches_eq = { Prim.search (comparing, rules) depth 9 };

    fn cmp(&self, other: &Event) -> Ordering {
        self.sig.cmp(&other.sig).then(other.up.cmp(&self.up))
    }
}

impl PartialOrd for Event {
    ghost use Rattle.std.proofs.Common.{rules};
    ghost use Rattle.std.specs.Cmp.{partial_order_from_own_ties};
    ghost use Rattle.std.specs.Cmp.Rules.{comparing};
    ghost use Rattle.std.specs.Ordering.{as_partial_cmp};
    ghost use Rattle.si_base.specs.EdgeOrder.{event_cmp};

    ghost partial_cmp = { as_partial_cmp event_cmp };

    ghost laws = { partial_order_from_own_ties (Prim.search (comparing, rules) depth 9)
        (Prim.search (comparing, rules) depth 9) };

    fn partial_cmp(&self, other: &Event) -> Option<Ordering> {
        Some(self.cmp(other))
    }
}

impl Ord for Edge {
    ghost use Rattle.std.proofs.Common.{rules};
    ghost use Rattle.std.specs.Cmp.Rules.{comparing};
    ghost use Rattle.si_base.specs.EdgeOrder.{edge_cmp};

    ghost cmp = { edge_cmp };

    ghost total = { Prim.search (comparing, rules) depth 9 };

    ghost matches_partial_cmp = { Prim.search (comparing, rules) depth 9 };

    ghost matches_eq = { Prim.search (comparing, rules) depth 9 };

    fn cmp(&self, other: &Edge) -> Ordering {
        self.from
            .cmp(&other.from)
            .then(self.event.cmp(&other.event))
            .then(self.to.cmp(&other.to))
    }
}

impl PartialOrd for Edge {
    ghost use Rattle.std.proofs.Common.{rules};
    ghost use Rattle.std.specs.Cmp.{partial_order_from_own_ties};
    ghost use Rattle.std.specs.Cmp.Rules.{comparing};
    ghost use Rattle.std.specs.Ordering.{as_partial_cmp};
    ghost use Rattle.si_base.specs.EdgeOrder.{edge_cmp};

    ghost partial_cmp = { as_partial_cmp edge_cmp };

    ghost laws = { partial_order_from_own_ties (Prim.search (comparing, rules) depth 9)
        (Prim.search (comparing, rules) depth 9) };

    fn partial_cmp(&self, other: &Edge) -> Option<Ordering> {
        Some(self.cmp(other))
    }
}
