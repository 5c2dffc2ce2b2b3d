//! The first breach of output persistency at a state.

ghost use Rattle.std.specs.Prelude.{IsTrue};
ghost use Rattle.si_base.specs.Graph.{IsNonInput, enables};
ghost use Rattle.si_base.specs.Codes.{IsDeterministic};
ghost use Rattle.si_base.specs.Proper.{loss_place};
ghost use Rattle.si_checks.specs.Loops.Searches.{IsFirstOrNone, LosesAt, LosesOf};

use si_base::ids::{Event, StateId};
use si_graph::graph::Graph;
use std::marker::Model;

/// A state `s` at which the event `by` disables the enabled non-input event `lost`.
#[derive(Clone, Copy)]
pub struct Loss {
    pub s: StateId,
    pub lost: Event,
    pub by: Event,
}

impl Model for Loss {
    ghost use Rattle.si_base.specs.Proper as proper;

    ghost Value = { proper.Loss };

    ghost view = { λ b. record { s = b.s; lost = b.lost; by = b.by } };

    ghost inverse = { λ b. record { s = b.s; lost = b.lost; by = b.by } };
}

/// The first loss at a state.
pub fn first_loss_at(graph: &Graph, s: StateId) -> Option<Loss>
    requires { IsDeterministic graph.now }
    ensures { IsFirstOrNone loss_place (LosesAt graph.now s) result }
{
    let arcs = graph.arcs_out(s);
    for x in arcs {
        if !graph.is_driven(x.event.sig) {
            continue;
        }
        if let Some(loss) = first_loss_of(graph, s, x.event) {
            return Some(loss);
        }
    }
    None
}

/// The first loss of an enabled non-input event at a state.
fn first_loss_of(graph: &Graph, s: StateId, lost: Event) -> Option<Loss>
    requires deterministic { IsDeterministic graph.now }
    requires non_input { IsNonInput graph.now.signals lost.sig }
    requires enabled { IsTrue (enables graph.now s lost) }
    ensures { IsFirstOrNone loss_place (LosesOf graph.now s lost) result }
{
    let arcs = graph.arcs_out(s);
    for y in arcs {
        if y.event == lost {
            continue;
        }
        if graph.enabled(y.to, lost) {
            continue;
        }
        return Some(Loss {
            s,
            lost,
            by: y.event,
        });
    }
    None
}
