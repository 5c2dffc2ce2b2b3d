//! The state from which the fewest arcs lead to two targets.

ghost use Rattle.std.specs.Prelude.{◌≡◌, ◌↔◌, ◌<◌, ◌^◌, IsTrue, length};
ghost use Rattle.si_walks.specs.Loops.Sources.{IsNearestOrNone, IsFewer, arcs_to_both};

use si_base::ids::StateId;

/// The state from which the fewest arcs lead to both targets together, the least of these; `None`
/// where both are reached from none.
pub(crate) fn nearest(first: &[Option<u32>], second: &[Option<u32>]) -> Option<StateId>
    requires few { length first.now < 2 ^ 32 }
    requires size { length second.now ≡ length first.now }
    ensures { IsNearestOrNone first.now second.now (length first.now) result }
{
    let mut best: Option<StateId> = None;
    for s in 0..first.len() as u32 {
        if has_fewer(first, second, StateId(s), &best) {
            best = Some(StateId(s));
        }
    }
    best
}

/// Whether both targets are reached from the state, and by fewer arcs than from the best so far.
fn has_fewer(
    first: &[Option<u32>],
    second: &[Option<u32>],
    s: StateId,
    best: &Option<StateId>,
) -> bool
    requires first { s < length first.now }
    requires second { length second.now ≡ length first.now }
    requires best { IsNearestOrNone first.now second.now s best.now }
    ensures { IsTrue result ↔ IsFewer first.now second.now s best.now }
{
    let Some(arcs) = arcs_from(first, second, s) else {
        return false;
    };
    let Some(best) = best else {
        return true;
    };
    match arcs_from(first, second, *best) {
        Some(fewest) => arcs < fewest,
        None => true,
    }
}

/// How many arcs lead from the state to both targets together.
fn arcs_from(first: &[Option<u32>], second: &[Option<u32>], s: StateId) -> Option<u64>
    requires first { s < length first.now }
    requires second { length second.now ≡ length first.now }
    ensures { result ≡ arcs_to_both first.now second.now s }
{
    let to_first = first[s.0 as usize]?;
    let to_second = second[s.0 as usize]?;
    Some(u64::from(to_first) + u64::from(to_second))
}
