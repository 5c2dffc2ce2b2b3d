//! Why a netlist isn't certified for a graph, or why a gate makes no new signal, by the words of
//! states and events and the names of signals.

ghost use Rattle.std.specs.Prelude.{◌≡◌, [], ◌∷◌, ◌++◌, IfOk, OnOk, codes, decimal};
ghost use Rattle.si_base.specs.Limits.{max_states};
ghost use Rattle.si_base.specs.Words.{line};
ghost use Rattle.si_refusals.specs.Rejection.{insert_words, reason_words};
ghost use Rattle.si_words.specs.Loops.Reads.{words_now};

use si_base::ids::NoMemory;
use si_base::limits::MAX_STATES;
use si_base::text::{Name, Text};
use si_netlist::name_list::NameList;
use si_netlist::write::add_words;
use std::alloc::Global;

/// Why a netlist isn't certified for a graph: the first reason. Insertions are counted from 1.
#[derive(Drop)]
pub enum NamedRejection {
    /// A gate moves the signal where the graph doesn't, at a state that the netlist and the graph
    /// reach together.
    Astray {
        signal: Name,
        state: Name,
    },
    /// The netlist and the graph reach more states together than a graph may have.
    TooMany,
    /// The signal of insertion `k` never rises.
    NeverUp {
        k: u32,
    },
    /// The signal of insertion `k` never falls.
    NeverDown {
        k: u32,
    },
    /// At the state the signal of insertion `k` is met with both values.
    Both {
        k: u32,
        state: Name,
    },
    /// The gate of the new signal forces no value on the part of the graph around the state.
    Unforced {
        state: Name,
    },
    /// The gate of the new signal forces either value on the part of the graph around the state.
    Contrary {
        state: Name,
    },
    /// At the state the gate of the new signal leaves the value that its part forces.
    Leaves {
        state: Name,
    },
    /// The gate of the new signal forces one value alone.
    Constant,
    /// The expression of the signal multiplies out to too many products.
    Products {
        signal: Name,
    },
    /// So many signals are hidden that their start values aren't searched for.
    Hidden {
        count: u32,
    },
    /// The words of insertion `k` don't name two sets of states.
    States {
        k: u32,
    },
    /// Between the states that insertion `k` names some part would be both high and low.
    Classes {
        k: u32,
    },
    /// At the state the input event would wait for the signal of insertion `k`.
    Delays {
        k: u32,
        state: Name,
        event: Text,
    },
    /// At the state the event `by` would disable `lost`, with the signal of insertion `k`.
    Breaks {
        k: u32,
        state: Name,
        lost: Text,
        by: Text,
    },
    /// With the signal of insertion `k` the graph would have that many states.
    TooLarge {
        k: u32,
        states: u64,
    },
    /// The inserted signal starts with another value than the last graph.
    Start {
        signal: Name,
    },
    /// The gate of the signal hasn't the next value at the state of the last graph.
    Gate {
        signal: Name,
        state: Name,
    },
}

/// The line of the reason why a netlist is rejected.
pub(crate) fn rejection_line(alloc: Global, reason: &NamedRejection) -> Result<Text, NoMemory>
    ensures { IfOk result (λ text. text ≡ line (codes "rejected" ∷ reason_words reason.now)) }
{
    let mut words = NameList::new(alloc);
    add_reason(alloc, &mut words, reason)?;
    line_of_names(alloc, b"rejected", &words)
}

/// The line of the reason why the netlist of a file isn't certified for its graph.
pub(crate) fn uncertified_line(
    alloc: Global,
    file: &[u8],
    reason: &NamedRejection,
) -> Result<Text, NoMemory>
    ensures { IfOk result (λ text.
        text ≡ line (codes "uncertified" ∷ file.now ∷ reason_words reason.now)) }
{
    let mut words = NameList::new(alloc);
    words.push(file)?;
    add_reason(alloc, &mut words, reason)?;
    line_of_names(alloc, b"uncertified", &words)
}

/// The line of a word and names.
fn line_of_names(alloc: Global, first: &[u8], names: &NameList) -> Result<Text, NoMemory>
    ensures { IfOk result (λ text. text ≡ line (first.now ∷ names.now)) }
{
    let mut text = Text::copy_of(alloc, first)?;
    add_words(&mut text, names)?;
    text.add(b"\n")?;
    Ok(text)
}

/// Puts the words of the reason last.
fn add_reason(alloc: Global, words: &mut NameList, reason: &NamedRejection) -> Result<(), NoMemory>
    ensures { OnOk result (words.new ≡ words.old ++ reason_words reason.now) }
{
    match reason {
        NamedRejection::Astray { signal, state } => {
            add_all(words, &[b"astray", signal.bytes(), state.bytes()])
        }
        NamedRejection::TooMany => add_too_many(alloc, words),
        NamedRejection::NeverUp { k } => add_insert(alloc, words, *k, &[b"never", b"up"]),
        NamedRejection::NeverDown { k } => add_insert(alloc, words, *k, &[b"never", b"down"]),
        NamedRejection::Both { k, state } => {
            add_insert(alloc, words, *k, &[b"both", state.bytes()])
        }
        NamedRejection::Unforced { state } => add_all(words, &[b"unforced", state.bytes()]),
        NamedRejection::Contrary { state } => add_all(words, &[b"contrary", state.bytes()]),
        NamedRejection::Leaves { state } => add_all(words, &[b"leaves", state.bytes()]),
        NamedRejection::Constant => add_all(words, &[b"constant"]),
        NamedRejection::Products { signal } => add_all(words, &[b"products", signal.bytes()]),
        NamedRejection::Hidden { count } => add_hidden(alloc, words, *count),
        NamedRejection::States { k } => add_insert(alloc, words, *k, &[b"states"]),
        NamedRejection::Classes { k } => add_insert(alloc, words, *k, &[b"classes"]),
        NamedRejection::Delays { k, state, event } => {
            add_insert(alloc, words, *k, &[b"delays", state.bytes(), event.bytes()])
        }
        NamedRejection::Breaks { k, state, lost, by } => add_insert(
            alloc,
            words,
            *k,
            &[b"breaks", state.bytes(), lost.bytes(), by.bytes()],
        ),
        NamedRejection::TooLarge { k, states } => add_too_large(alloc, words, *k, *states),
        NamedRejection::Start { signal } => add_all(words, &[b"start", signal.bytes()]),
        NamedRejection::Gate { signal, state } => {
            add_all(words, &[b"gate", signal.bytes(), state.bytes()])
        }
    }
}

/// Puts last the words of more states than a graph may have.
fn add_too_many(alloc: Global, words: &mut NameList) -> Result<(), NoMemory>
    ensures { OnOk result
        (words.new ≡ words.old ++ codes "states" ∷ decimal max_states ∷ []) }
{
    let Ok(states) = MAX_STATES.to_string(alloc) else {
        return Err(NoMemory);
    };
    add_all(words, &[b"states", states.as_bytes()])
}

/// Puts last the words of too many hidden signals.
fn add_hidden(alloc: Global, words: &mut NameList, count: u32) -> Result<(), NoMemory>
    ensures { OnOk result (words.new ≡ words.old ++ codes "hidden" ∷ decimal count ∷ []) }
{
    let Ok(count) = count.to_string(alloc) else {
        return Err(NoMemory);
    };
    add_all(words, &[b"hidden", count.as_bytes()])
}

/// Puts last the words of a reason against insertion number `k`.
fn add_insert(alloc: Global, words: &mut NameList, k: u32, shown: &[&[u8]]) -> Result<(), NoMemory>
    ensures { OnOk result (words.new ≡ words.old ++ insert_words k (words_now shown.now)) }
{
    let Ok(k) = k.to_string(alloc) else {
        return Err(NoMemory);
    };
    add_all(words, &[b"insert", k.as_bytes()])?;
    add_all(words, shown)
}

/// Puts last the words of too many states with insertion number `k`.
fn add_too_large(alloc: Global, words: &mut NameList, k: u32, states: u64) -> Result<(), NoMemory>
    ensures { OnOk result
        (words.new ≡ words.old ++ insert_words k (codes "toolarge" ∷ decimal states ∷ [])) }
{
    let Ok(states) = states.to_string(alloc) else {
        return Err(NoMemory);
    };
    add_insert(alloc, words, k, &[b"toolarge", states.as_bytes()])
}

/// Puts the words last.
fn add_all(words: &mut NameList, more: &[&[u8]]) -> Result<(), NoMemory>
    ensures { OnOk result (words.new ≡ words.old ++ words_now more.now) }
{
    for word in more {
        words.push(*word)?;
    }
    Ok(())
}
