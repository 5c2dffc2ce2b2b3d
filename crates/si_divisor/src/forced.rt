//! What functions force: for each state a word, bit k of which is that of the function at k.
//!
//! The states are taken 128 at a time. Their codes, turned, are a word for each signal, with its
//! values at these states. By these words each function has all its values at once, and those of
//! 128 functions, turned back, are the words of the states.

ghost use Rattle.std.specs.Prelude.{◌≡◌, ◌+◌, ◌<◌, ◌≤◌, All, IfOk, false, length, true};
ghost use Rattle.si_base.specs.Limits.{code_width};
ghost use Rattle.si_divisor.specs.Loops.Columns.{AreColumns, TellForced, TellFunctions};
ghost use Rattle.si_divisor.specs.Loops.ManyFunctions.{AreForcedWords};

use crate::function::Function;
use si_base::ids::{NoMemory, StateId};
use si_closures::turned::turn;
use si_closures::words::SETS;
use si_graph::coded::Coded;
use std::alloc::Global;

/// For each state the functions that force it to 1, and those that force it to 0, a bit for each.
#[derive(Drop)]
pub(crate) struct ForcedWords {
    pub(crate) up: Vec<u128>,
    pub(crate) down: Vec<u128>,
}

/// For each state the functions that force it to either value. It fails only where memory runs out.
pub(crate) fn forced_words(
    alloc: Global,
    coded: &Coded,
    functions: &[Function],
) -> Result<ForcedWords, NoMemory>
    requires few { length functions.now ≤ 128 }
    requires within { All (λ f. All (λ s. s < code_width) f.signals.items) functions.now }
    ensures up { IfOk result (λ r. AreForcedWords coded.now functions.now true r.up.items) }
    ensures down { IfOk result (λ r. AreForcedWords coded.now functions.now false r.down.items) }
{
    let mut up = Vec::new(alloc);
    let mut down = Vec::new(alloc);
    let states = coded.graph().states();
    for block in 0..states.div_ceil(128) {
        let first = 128 * block;
        let count = (states - first).min(128) as usize;
        let forced = forced_block(coded, functions, first, count);
        up.extend_from_slice(&forced.up[..count])?;
        down.extend_from_slice(&forced.down[..count])?;
    }
    Ok(ForcedWords { up, down })
}

/// What functions force at 128 states at most, which stand first in the lists: for each state those
/// that force it to 1, and those that force it to 0.
#[derive(Drop)]
struct ForcedBlock {
    up: [u128; SETS],
    down: [u128; SETS],
}

/// What the functions force at so many states from `first` on.
fn forced_block(coded: &Coded, functions: &[Function], first: u32, count: usize) -> ForcedBlock
    requires few { length functions.now ≤ 128 }
    requires within { All (λ f. All (λ s. s < code_width) f.signals.items) functions.now }
    requires block { count ≤ 128 }
    requires states { first + count ≤ coded.now.graph.states }
    ensures up_size { length result.up ≡ 128 }
    ensures down_size { length result.down ≡ 128 }
    ensures up { TellForced coded.now functions.now true first count result.up }
    ensures down { TellForced coded.now functions.now false first count result.down }
{
    let columns = columns_at(coded, first, count);
    // The bits of no function stay 0, so that no search begins for them.
    let (mut up, mut down) = ([0; SETS], [0; SETS]);
    put_words(functions, &columns, &mut up, &mut down);
    turn(&mut up);
    turn(&mut down);
    ForcedBlock { up, down }
}

/// For each signal its values at so many states from `first` on.
fn columns_at(coded: &Coded, first: u32, count: usize) -> [u128; SETS]
    requires block { count ≤ 128 }
    requires states { first + count ≤ coded.now.graph.states }
    ensures { AreColumns coded.now first count result }
{
    let _given = coded.graph();
    let mut rows = [0; SETS];
    for i in 0..count {
        rows[i] = coded.code(StateId(first + i as u32)).0;
    }
    turn(&mut rows);
    rows
}

/// For each function the states that it forces to 1, and those that it forces to 0, by the values
/// of each signal at the states.
fn put_words(functions: &[Function], columns: &[u128], up: &mut [u128], down: &mut [u128])
    requires few { length functions.now ≤ 128 }
    requires within { All (λ f. All (λ s. s < code_width) f.signals.items) functions.now }
    requires columns { length columns.now ≡ code_width }
    requires up_size { length up.old ≡ 128 }
    requires down_size { length down.old ≡ 128 }
    ensures up_size { length up.new ≡ 128 }
    ensures down_size { length down.new ≡ 128 }
    ensures up { TellFunctions functions.now true columns.now up.new }
    ensures down { TellFunctions functions.now false columns.now down.new }
{
    for k in 0..functions.len() {
        (up[k], down[k]) = functions[k].forced_states(columns);
    }
}
