//! The first event that tells two states apart.

ghost use Rattle.si_same.specs.Loops.Search.{IsFirstApartOrNone, IsFirstLackingOrNone};

use si_base::ids::{Event, StateId};
use si_graph::graph::Graph;

/// The first event that one of two states enables in its graph and the other doesn't in its own;
/// `None` exactly where they enable the same events.
pub(crate) fn first_apart(one: &Graph, other: &Graph, s: StateId, t: StateId) -> Option<Event>
    ensures { IsFirstApartOrNone one.now other.now s t result }
{
    let Some(here) = first_lacking(one, other, s, t) else {
        return first_lacking(other, one, t, s);
    };
    let Some(there) = first_lacking(other, one, t, s) else {
        return Some(here);
    };
    if here < there {
        Some(here)
    } else {
        Some(there)
    }
}

/// The first event that `s` enables in the one graph and `t` doesn't in the other.
fn first_lacking(one: &Graph, other: &Graph, s: StateId, t: StateId) -> Option<Event>
    ensures { IsFirstLackingOrNone one.now other.now s t result }
{
    let out = one.arcs_out(s);
    for arc in out {
        if !other.enabled(t, arc.event) {
            return Some(arc.event);
        }
    }
    None
}
