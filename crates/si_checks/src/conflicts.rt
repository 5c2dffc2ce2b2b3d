//! The first conflict of a coded graph.

ghost use Rattle.std.specs.Prelude.{◌≡◌, ◌≢◌, ℕ, ◌↔◌, IsTrue, IfOk, OnOk, unwrap_or, Some};
ghost use Rattle.std.specs.BTreeMap.{get};
ghost use Rattle.std.specs.Ordering.{nat_cmp};
ghost use Rattle.si_base.specs.Proper.{IsConflict, pair_place};
ghost use Rattle.si_checks.specs.Loops.Searches.{IsFirstOrNone, EnablesMore, Differ, Keeps};

use si_base::ids::{Code, NoMemory, StateId};
use si_graph::coded::Coded;
use si_graph::graph::Graph;
use std::alloc::Global;
use std::collections::BTreeMap;

/// The first two states of equal code that enable different non-input events.
///
/// States are compared with the first state of their code alone: if two states are a conflict, one
/// of them differs from that state, so the first conflict has the first state of a code.
pub fn first_conflict(alloc: Global, coded: &Coded) -> Result<Option<(StateId, StateId)>, NoMemory>
    ensures { IfOk result (IsFirstOrNone pair_place (IsConflict coded.now)) }
{
    let graph = coded.graph();
    let mut firsts: BTreeMap<Code, StateId> = BTreeMap::new(alloc);
    let mut found: Option<(StateId, StateId)> = None;
    for s in 0..graph.states() {
        let q = StateId(s);
        let p = first_of_code(&mut firsts, coded.code(q), q)?;
        if differ(graph, p, q) {
            found = Some(earlier(found, (p, q)));
        }
    }
    Ok(found)
}

/// The state that stands at the code. If none does, `s` is put there.
pub(crate) fn first_of_code(
    firsts: &mut BTreeMap<Code, StateId>,
    code: Code,
    s: StateId,
) -> Result<StateId, NoMemory>
    ensures found { IfOk result (λ p. p ≡ unwrap_or (get nat_cmp firsts.old code) s) }
    ensures there { IfOk result (λ p. get nat_cmp firsts.new code ≡ Some p) }
    ensures others { OnOk result
        ((k : ℕ) → k ≢ code → get nat_cmp firsts.new k ≡ get nat_cmp firsts.old k) }
{
    Ok(*firsts.entry(code)?.or_insert(s))
}

/// The pair that was found, unless the first state of this one is earlier.
fn earlier(found: Option<(StateId, StateId)>, pair: (StateId, StateId)) -> (StateId, StateId)
    ensures { Keeps found pair result }
{
    let Some(best) = found else {
        return pair;
    };
    if best.0 <= pair.0 { best } else { pair }
}

/// Whether two states enable different non-input events.
pub fn differ(graph: &Graph, p: StateId, q: StateId) -> bool
    ensures { IsTrue result ↔ Differ graph.now p q }
{
    enables_more(graph, p, q) || enables_more(graph, q, p)
}

/// Whether `p` enables a non-input event that `q` doesn't.
fn enables_more(graph: &Graph, p: StateId, q: StateId) -> bool
    ensures { IsTrue result ↔ EnablesMore graph.now p q }
{
    let arcs = graph.arcs_out(p);
    for a in arcs {
        if !graph.is_driven(a.event.sig) {
            continue;
        }
        if graph.enabled(q, a.event) {
            continue;
        }
        return true;
    }
    false
}
