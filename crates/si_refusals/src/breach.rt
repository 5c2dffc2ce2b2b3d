//! Why a graph isn't proper, by the names of its states and the words of its events.

ghost use Rattle.std.specs.Prelude.{◌≡◌, ◌<◌, length, IfOk};
ghost use Rattle.si_base.specs.NetlistText.{name_of};
ghost use Rattle.si_sg.specs.CanonicalText.{event_word as word_of_event, state_at};

use si_base::graph::{Signal, signal_name};
use si_base::ids::{Event, NoMemory, Sig, StateId};
use si_base::names::Names;
use si_base::text::{Name, Text};
use si_sg::write::{name_at, sign};
use std::alloc::Global;

/// A breach of what makes a graph proper, with the names of its states and the words of its events.
#[derive(Drop)]
pub enum NamedBreach {
    /// The state leads by the event to both `one` and `other`.
    Nondeterministic {
        state: Name,
        event: Text,
        one: Name,
        other: Name,
    },
    /// No values of the signal suit the arcs.
    Inconsistent {
        signal: Name,
    },
    /// The state leads by `first` and then `second` to `one`, and by `second` and then `first` to
    /// another state, `other`.
    Noncommutative {
        state: Name,
        first: Text,
        second: Text,
        one: Name,
        other: Name,
    },
    /// At the state the event `by` disables the enabled non-input event `lost`.
    Nonpersistent {
        state: Name,
        lost: Text,
        by: Text,
    },
}

/// The name of a state.
pub fn state_name(alloc: Global, states: &Names, s: StateId) -> Result<Name, NoMemory>
    requires { s < length states.now }
    ensures { IfOk result (λ name. name ≡ state_at states.now s) }
{
    Name::copy_of(alloc, name_at(states, s))
}

/// The name of a signal, or nothing where there is no such signal.
pub fn name_of_signal(alloc: Global, signals: &[Signal], z: Sig) -> Result<Name, NoMemory>
    ensures { IfOk result (λ name. name ≡ name_of signals.now z) }
{
    match signals.get(z.0 as usize) {
        Some(signal) => Name::copy_of(alloc, signal.name.bytes()),
        None => Name::copy_of(alloc, b""),
    }
}

/// The word of an event.
pub fn event_word(alloc: Global, signals: &[Signal], event: Event) -> Result<Text, NoMemory>
    requires { event.sig < length signals.now }
    ensures { IfOk result (λ word. word ≡ word_of_event signals.now event) }
{
    let Event { sig, up } = event;
    let mut word = Text::copy_of(alloc, signal_name(signals, sig))?;
    word.add(sign(up))?;
    Ok(word)
}
