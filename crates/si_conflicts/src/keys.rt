//! What tells whether two states are a conflict.

ghost use Rattle.std.specs.Prelude.{◌≡◌, ◌<◌, IfOk, length, true};
ghost use Rattle.si_conflicts.specs.Loops.Keys.{AreExcited, AreKeys, IsKey, key_at};

use si_base::ids::{Code, NoMemory, StateId};
use si_graph::coded::Coded;
use std::alloc::Global;

/// The code of a state, and the signals of its enabled non-input events. Which event of a signal
/// that is follows from the code.
#[derive(Clone, Copy, PartialEq, Eq, PartialOrd, Ord, Debug)]
pub struct Key {
    pub code: Code,
    pub excited: Code,
}

/// The keys of all states. It fails only where memory runs out.
pub fn keys(alloc: Global, coded: &Coded) -> Result<Vec<Key>, NoMemory>
    ensures { IfOk result (λ keys. AreKeys coded.now keys.items) }
{
    let states = coded.graph().states();
    let mut keys: Vec<Key> = Vec::new(alloc);
    for k in 0..states {
        let s = StateId(k);
        keys.push(state_key(coded, s))?;
    }
    Ok(keys)
}

/// The key of a state, from the graph.
pub fn state_key(coded: &Coded, s: StateId) -> Key
    requires { s < coded.now.graph.states }
    ensures { IsKey coded.now s result }
{
    Key {
        code: coded.code(s),
        excited: excited(coded, s),
    }
}

/// The signals whose non-input events the state enables.
fn excited(coded: &Coded, s: StateId) -> Code
    requires { s < coded.now.graph.states }
    ensures { AreExcited coded.now.graph s result }
{
    let graph = coded.graph();
    let arcs = graph.arcs_out(s);
    let mut excited = Code(0);
    for arc in arcs {
        if graph.is_driven(arc.event.sig) {
            excited = excited.set(arc.event.sig, true);
        }
    }
    excited
}

/// The key of a state.
pub fn key_of(keys: &[Key], s: StateId) -> Key
    requires { s < length keys.now }
    ensures { result ≡ key_at keys.now s }
{
    keys[s.0 as usize]
}
