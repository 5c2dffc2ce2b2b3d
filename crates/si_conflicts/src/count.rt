//! The number of pairs of keys that are a conflict.

ghost use Rattle.std.specs.Prelude.{◌≡◌, ◌*◌, ◌<◌, ◌≤◌, IfOk, length};
ghost use Rattle.std.specs.List.Sorted.{IsSorted};
ghost use Rattle.si_base.specs.Limits.{max_states};
ghost use Rattle.si_conflicts.specs.Loops.Keys.{clash_count, key_cmp};

use crate::keys::Key;
use crate::tally::{Role, Tally};
use crate::turns::Change;
use si_base::ids::{Code, NoMemory};
use std::alloc::Global;

/// How many pairs of keys have equal codes and differ, whatever order they stand in.
pub fn count_clashes(alloc: Global, keys: &[Key]) -> Result<u64, NoMemory>
    requires { length keys.now ≤ max_states }
    ensures is { IfOk result (λ n. n ≡ clash_count keys.now) }
    ensures few { IfOk result (λ n. n ≤ max_states * max_states) }
{
    let mut sorted = Vec::from_slice(alloc, keys)?;
    sorted.sort_unstable();
    Ok(clashes_of_sorted(sorted.as_slice()))
}

/// The same for sorted keys, where those of one code stand side by side, and so do equal ones. Each
/// is tallied as a copy at which the new signal is stable: keys alone tell such copies apart.
fn clashes_of_sorted(keys: &[Key]) -> u64
    requires few { length keys.now ≤ max_states }
    requires sorted { IsSorted key_cmp keys.now }
    ensures is { result ≡ clash_count keys.now }
    ensures few { result ≤ max_states * max_states }
{
    let mut tally = Tally::none();
    let mut last = Key {
        code: Code(0),
        excited: Code(0),
    };
    let mut total: u64 = 0;
    for key in keys {
        tally = tally.for_change(Change::between(&last, key));
        total += tally.conflicts(Role::Plain) as u64;
        tally = tally.with(Role::Plain);
        last = *key;
    }
    total
}
