//! Sets of states that tests are about.

ghost use Rattle.std.specs.Prelude.{◌≡◌, IfOk, length};

use si_base::ids::{NoMemory, StateId};
use si_base::sets::StateSet;
use std::alloc::Global;
use std::process::Abort;

/// The set of these states among so many.
pub fn set_of(
    rt: &impl Abort,
    alloc: Global,
    size: u32,
    states: &[u32],
) -> Result<StateSet, NoMemory>
    ensures { IfOk result (λ set. length set ≡ size) }
{
    let mut set = StateSet::new(alloc, size)?;
    for s in states {
        assert!(rt; *s < size);
        set.add(StateId(*s));
    }
    Ok(set)
}

/// Whether these are the states of the set, each told once.
pub fn holds_just(set: &StateSet, states: &[u32]) -> bool {
    for s in states {
        if *s >= set.size() || !set.has(StateId(*s)) {
            return false;
        }
    }
    set.count() as usize == states.len()
}
