//! Members as they are counted: each by its state, and by how its key follows the one before.

ghost use Rattle.std.specs.Prelude.{◌≡◌, IfOk};
ghost use Rattle.si_conflicts.specs.Loops.Keys.{no_key};
ghost use Rattle.si_conflicts.specs.Loops.Turns.{change_between, turns_after};
ghost use Rattle.si_conflicts.specs.Loops.Turns as Turns;

use crate::keys::Key;
use crate::members::Member;
use si_base::ids::{Code, NoMemory, StateId};
use std::alloc::Global;

/// How a key differs from the one before it.
#[derive(Clone, Copy, PartialEq, Eq, Debug)]
pub enum Change {
    /// It is the same.
    SameKey,
    /// The code is the same, and other signals are excited.
    NewKey,
    /// The code is another.
    NewCode,
}

impl Change {
    /// How the second key differs from the first.
    pub fn between(from: &Key, to: &Key) -> Change
        ensures { result ≡ change_between from.now to.now }
    {
        if from.code != to.code {
            Change::NewCode
        } else if from.excited != to.excited {
            Change::NewKey
        } else {
            Change::SameKey
        }
    }

    /// Whether the code stays.
    pub fn keeps_code(self) -> bool
        ensures { result ≡ Turns.keeps_code self }
    {
        !matches!(self, Change::NewCode)
    }

    /// Whether the key stays.
    pub fn keeps_key(self) -> bool
        ensures { result ≡ Turns.keeps_key self }
    {
        matches!(self, Change::SameKey)
    }
}

/// A member as it is counted.
#[derive(Clone, Copy, PartialEq, Eq, Debug)]
pub struct Turn {
    pub state: StateId,
    /// How its key differs from that of the member before.
    pub change: Change,
}

/// The members as they are counted. It fails only where memory runs out.
pub fn turns(alloc: Global, members: &[Member]) -> Result<Vec<Turn>, NoMemory>
    ensures { IfOk result (λ turns. turns.items ≡ turns_after no_key members.now) }
{
    let mut turns: Vec<Turn> = Vec::new(alloc);
    let mut last = Key {
        code: Code(0),
        excited: Code(0),
    };
    for member in members {
        turns.push(Turn {
            state: member.state,
            change: Change::between(&last, &member.key),
        })?;
        last = member.key;
    }
    Ok(turns)
}
