//! Names of tuples of states, and of the model of graphs side by side.

ghost use Rattle.std.specs.List.{join_with_byte};
ghost use Rattle.std.specs.Prelude.{◌≡◌, ◌≢◌, ◌<◌, [], ◌∷◌, ◌++◌, All, AllPairs, IfOk, OnOk};
ghost use Rattle.std.specs.Prelude.{length};
ghost use Rattle.std.specs.Prelude.{map};
ghost use Rattle.si_sg.specs.CanonicalText.{event_word as word_of_event};
ghost use Rattle.si_systems.specs.Loops.Parts.{AreGiven, AreTuplesOf, sgs_now};
ghost use Rattle.si_systems.specs.Names as meaning;
ghost use Rattle.si_systems.specs.Names.{IsTupleOf, bar, escaped};

use si_base::graph::Signal;
use si_base::ids::{Event, NoMemory, StateId};
use si_base::limits::MAX_STATES;
use si_base::names::Names;
use si_base::text::{Name, Text};
use si_base::text_key::TextKey;
use si_composing::tuples::Tuple;
use si_netlist::name_list::NameList;
use si_refusals::breach::event_word;
use si_sg::read::Sg;
use si_sg::write::name_at;
use std::alloc::Global;

/// The names of a tuple's states, one of each graph.
pub(crate) fn names_at(alloc: Global, given: &[Sg], tuple: &Tuple) -> Result<NameList, NoMemory>
    requires { IsTupleOf (sgs_now given.now) tuple.now }
    ensures { IfOk result (λ names. names ≡ meaning.names_at (sgs_now given.now) tuple.now) }
{
    let states = tuple.states();
    let mut names = NameList::new(alloc);
    for k in 0..given.len() {
        let sg = &given[k];
        names.push(name_at(&sg.states, StateId(states[k])))?;
    }
    Ok(names)
}

/// The words of events.
pub(crate) fn event_words(
    alloc: Global,
    signals: &[Signal],
    events: &[Event],
) -> Result<NameList, NoMemory>
    requires { All (λ e. e.sig < length signals.now) events.now }
    ensures { IfOk result (λ words. words ≡ map (word_of_event signals.now) events.now) }
{
    let mut words = NameList::new(alloc);
    for event in events {
        let word = event_word(alloc, signals, *event)?;
        words.push(word.bytes())?;
    }
    Ok(words)
}

/// Adds the name, with a `\` before each `|` and `\`.
fn add_escaped(text: &mut Text, name: &[u8]) -> Result<(), NoMemory>
    ensures { OnOk result (text.new ≡ text.old ++ escaped name.now) }
{
    for byte in name {
        if *byte == b'|' || *byte == b'\\' {
            text.add(b"\\")?;
        }
        text.add(&[*byte])?;
    }
    Ok(())
}

/// Adds `|` before the word of place `k`, if it isn't the first.
fn add_bar(text: &mut Text, k: usize) -> Result<(), NoMemory>
    ensures first { OnOk result (k ≡ 0 → text.new ≡ text.old) }
    ensures later { OnOk result (0 < k → text.new ≡ text.old ++ bar ∷ []) }
{
    if k > 0 { text.add(b"|") } else { Ok(()) }
}

/// The name of a tuple.
fn tuple_name(alloc: Global, given: &[Sg], tuple: &Tuple) -> Result<Text, NoMemory>
    requires { IsTupleOf (sgs_now given.now) tuple.now }
    ensures { IfOk result (λ name. name ≡ meaning.tuple_name (sgs_now given.now) tuple.now) }
{
    let names = names_at(alloc, given, tuple)?;
    joined_escaped(alloc, &names)
}

/// The names, each escaped, with `|` between them.
fn joined_escaped(alloc: Global, names: &NameList) -> Result<Text, NoMemory>
    ensures { IfOk result (λ text. text ≡ join_with_byte bar (map escaped names.now)) }
{
    let mut text = Text::copy_of(alloc, b"")?;
    for k in 0..names.len() {
        add_bar(&mut text, k)?;
        add_escaped(&mut text, names.get(k))?;
    }
    Ok(text)
}

/// The names of tuples.
///
/// The key hinders that texts are written whose names fill one place of a table; it changes no
/// answer.
pub(crate) fn tuple_names(
    alloc: Global,
    key: TextKey,
    given: &[Sg],
    tuples: &[Tuple],
) -> Result<Names, NoMemory>
    requires given { AreGiven (sgs_now given.now) }
    requires tuples { AreTuplesOf (sgs_now given.now) tuples.now }
    requires distinct { AllPairs (λ xs ys. xs ≢ ys) tuples.now }
    ensures { IfOk result
        (λ names. names ≡ map (meaning.tuple_name (sgs_now given.now)) tuples.now) }
{
    let mut names = Names::with_key(alloc, key);
    for tuple in tuples {
        let name = tuple_name(alloc, given, tuple)?;
        let Ok(_) = names.add(name.bytes(), MAX_STATES) else {
            return Err(NoMemory);
        };
    }
    Ok(names)
}

/// The model of the graphs side by side: their models with `|` between them.
pub(crate) fn joined_model(alloc: Global, given: &[Sg]) -> Result<Name, NoMemory>
    ensures { IfOk result (λ model. model ≡ meaning.joined_model (sgs_now given.now)) }
{
    let mut text = Text::copy_of(alloc, b"")?;
    for k in 0..given.len() {
        add_bar(&mut text, k)?;
        let sg = &given[k];
        text.add(sg.model.bytes())?;
    }
    Name::copy_of(alloc, text.bytes())
}
