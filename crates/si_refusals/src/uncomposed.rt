//! Why graphs can't be composed, by the names of signals and states and the word of an event.

ghost use Rattle.std.specs.Prelude.{◌≡◌, [], ◌∷◌, ◌++◌, IfOk, codes, decimal};
ghost use Rattle.si_base.specs.Words.{line};
ghost use Rattle.si_refusals.specs.Uncomposed.{cause_words};

use crate::refusals::line_of;
use si_base::ids::NoMemory;
use si_base::text::{Name, Text};
use si_netlist::name_list::NameList;
use si_netlist::write::add_words;
use si_words::writing::add_word;
use std::alloc::Global;

/// Why graphs can't be composed: the first cause.
#[derive(Drop)]
pub enum NamedCause {
    /// Two graphs drive the signal.
    Driven {
        signal: Name,
    },
    /// Two graphs have the signal, and for the one that drives it it is internal.
    Private {
        signal: Name,
    },
    /// There would be so many signals.
    Signals {
        count: u32,
    },
    /// The signal starts with the value 0 in one graph, and with 1 in another.
    Starts {
        signal: Name,
    },
    /// There would be more states than a graph may have.
    States,
    /// At these states, one of each graph, one graph drives the event, and another refuses it; the
    /// walk leads there.
    Interferes {
        states: NameList,
        event: Text,
        walk: NameList,
    },
    /// There would be more arcs than a text may have.
    Arcs,
    /// The signal starts with the value 1, and nothing switches it.
    Constant {
        signal: Name,
    },
}

/// The line of the cause.
pub(crate) fn cause_line(alloc: Global, cause: &NamedCause) -> Result<Text, NoMemory>
    ensures { IfOk result (λ text. text ≡ line (cause_words cause.now)) }
{
    match cause {
        NamedCause::Driven { signal } => line_of(alloc, b"driven", &[signal.bytes()]),
        NamedCause::Private { signal } => line_of(alloc, b"private", &[signal.bytes()]),
        NamedCause::Signals { count } => signals_line(alloc, *count),
        NamedCause::Starts { signal } => line_of(alloc, b"starts", &[signal.bytes()]),
        NamedCause::States => line_of(alloc, b"states", &[]),
        NamedCause::Interferes {
            states,
            event,
            walk,
        } => interferes_line(alloc, states, event, walk),
        NamedCause::Arcs => line_of(alloc, b"arcs", &[]),
        NamedCause::Constant { signal } => line_of(alloc, b"constant", &[signal.bytes()]),
    }
}

/// The line of too many signals.
fn signals_line(alloc: Global, count: u32) -> Result<Text, NoMemory>
    ensures { IfOk result (λ text. text ≡ line (codes "signals" ∷ decimal count ∷ [])) }
{
    let Ok(count) = count.to_string(alloc) else {
        return Err(NoMemory);
    };
    line_of(alloc, b"signals", &[count.as_bytes()])
}

/// The line of an event that a graph refuses.
fn interferes_line(
    alloc: Global,
    states: &NameList,
    event: &Text,
    walk: &NameList,
) -> Result<Text, NoMemory>
    ensures { IfOk result (λ text. text
        ≡ line (codes "interferes" ∷ (states.now ++ event.now ∷ walk.now))) }
{
    let mut text = Text::copy_of(alloc, b"interferes")?;
    add_words(&mut text, states)?;
    add_word(&mut text, event.bytes())?;
    add_words(&mut text, walk)?;
    text.add(b"\n")?;
    Ok(text)
}
