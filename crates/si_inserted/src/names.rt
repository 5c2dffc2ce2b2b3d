//! The names of the states of a lineage's current graph.

ghost use Rattle.std.specs.Prelude.{◌≡◌, ◌<◌, IfOk, length};
ghost use Rattle.si_circuit.specs.Circuits.{AreStateNames};
ghost use Rattle.si_inserted.specs.Current as current;

use si_base::ids::{NoMemory, StateId};
use si_base::names::{AddFault, Names};
use si_circuit::spelling::current_state_word;
use si_insert::lineage::Lineage;
use std::alloc::Global;

/// The names of the states of the current graph, where the given states have these. It fails only
/// where memory runs out.
pub(crate) fn current_names(
    alloc: Global,
    lineage: &Lineage,
    states: &Names,
) -> Result<Names, NoMemory>
    requires { AreStateNames lineage.now.given.graph states.now }
    ensures { IfOk result (λ names. names ≡ current.current_names states.now lineage.now) }
{
    // What holds of each lineage comes with its trace, and of names with their number.
    let _trace = lineage.trace();
    let _count = states.len();
    let size = lineage.current().coded().graph().states();
    let mut names = states.empty_like();
    for s in 0..size {
        let name = current_name(alloc, lineage, states, StateId(s))?;
        match names.add(name.as_slice(), size) {
            Ok(_) => {}
            Err(AddFault::NoMemory) => return Err(NoMemory),
            // Fewer states have names so far than there are.
            Err(AddFault::Full) => unreachable!(),
        }
    }
    Ok(names)
}

/// The name of a state: its word, with `_` in place of `@`.
fn current_name(
    alloc: Global,
    lineage: &Lineage,
    states: &Names,
    s: StateId,
) -> Result<Vec<u8>, NoMemory>
    requires count { length states.now ≡ lineage.now.given.graph.states }
    requires within { s < lineage.now.current.coded.graph.states }
    ensures { IfOk result (λ name. name.items ≡ current.current_name states.now lineage.now s) }
{
    let word = current_state_word(alloc, lineage, states, s)?;
    let mut name = Vec::new(alloc);
    for byte in word.bytes() {
        name.push(name_byte(*byte))?;
    }
    Ok(name)
}

/// `_` in place of `@`.
fn name_byte(byte: u8) -> u8
    ensures { result ≡ current.name_byte byte }
{
    if byte == b'@' { b'_' } else { byte }
}
