//! Words of the listings.

ghost use Rattle.std.specs.Prelude.{◌≡◌, ◌<◌, ◌++◌, ◌∷◌, OnOk, All, length, map};
ghost use Rattle.si_base.specs.Bytes.{space};
ghost use Rattle.si_words.specs.Loops.Writing.{spaced};
ghost use Rattle.si_sg.specs.CanonicalText.{state_at, event_word};

use si_base::graph::{Signal, signal_name};
use si_base::ids::{Event, NoMemory, StateId};
use si_base::names::Names;
use si_base::text::Text;
use si_sg::write::{name_at, sign};
use si_words::writing::add_word;

/// Adds a blank and the event.
pub fn add_event(text: &mut Text, signals: &[Signal], e: &Event) -> Result<(), NoMemory>
    requires { e.now.sig < length signals.now }
    ensures { OnOk result (text.new ≡ text.old ++ space ∷ event_word signals.now e.now) }
{
    add_word(text, signal_name(signals, e.sig))?;
    text.add(sign(e.up))
}

/// Adds the names of the states, each with a blank before it.
pub fn add_states(text: &mut Text, names: &Names, states: &[StateId]) -> Result<(), NoMemory>
    requires { All (λ s. s < length names.now) states.now }
    ensures { OnOk result
        (text.new ≡ text.old ++ spaced (map (state_at names.now) states.now)) }
{
    for s in states {
        add_word(text, name_at(names, *s))?;
    }
    Ok(())
}
