//! How the insertions of a lineage are spelled.

ghost use Rattle.std.specs.Prelude.{◌≡◌, ◌<◌, ◌≤◌, ◌++◌, IfOk, OnOk, All, length};
ghost use Rattle.si_base.specs.Limits.{code_width, max_states};
ghost use Rattle.si_circuit.specs.Spelling as spelled;
ghost use Rattle.si_circuit.specs.Spelling.{current_word, insertions_of};

use si_base::ids::{Code, NoMemory, Sig, StateId};
use si_base::names::Names;
use si_base::text::Name;
use si_insert::lineage::{Lineage, TraceStep};
use si_insert::partition::Class;
use si_insert::state_copies::{StateCopy, copies_of};
use si_netlist::gate::Insert;
use si_netlist::name_list::NameList;
use std::alloc::Global;

/// Where a state of a lineage comes from: its given state, and the values of the inserted signals,
/// bit k that of number k, counted from 0 in order of insertion.
#[derive(Clone, Copy)]
pub struct Descent {
    pub origin: StateId,
    pub bits: Code,
}

/// The insertions of a lineage in their order: of each the name, and the states at which the signal
/// rises and falls, in state order. A state is spelled by the name of the given state from which it
/// comes, and, where signals were inserted before, `@` and their values in order of insertion. It
/// fails only where memory runs out.
pub fn insertions(alloc: Global, lineage: &Lineage, states: &Names) -> Result<Vec<Insert>, NoMemory>
    requires { length states.now ≡ lineage.now.given.graph.states }
    ensures { IfOk result (λ inserts. inserts.items ≡ insertions_of states.now lineage.now) }
{
    let trace = lineage.trace();
    let mut descents = given_descents(alloc, lineage.given().coded().graph().states())?;
    let mut inserts = Vec::new(alloc);
    for k in 0..trace.len() {
        let step = &trace[k];
        inserts.push(insertion_of(alloc, states, k, descents.as_slice(), step)?)?;
        descents = descents_after(alloc, k, step.partition.classes(), descents.as_slice())?;
    }
    Ok(inserts)
}

/// The word of a state of the lineage's current graph, as `insertions` spells it: the name of the
/// given state from which it comes, and, where signals are inserted, `@` and their values in order
/// of insertion. It fails only where memory runs out.
pub fn current_state_word(
    alloc: Global,
    lineage: &Lineage,
    states: &Names,
    s: StateId,
) -> Result<Name, NoMemory>
    requires count { length states.now ≡ lineage.now.given.graph.states }
    requires within { s < lineage.now.current.coded.graph.states }
    ensures { IfOk result (λ word. word ≡ current_word states.now lineage.now s) }
{
    // What holds of each lineage comes with its current graph.
    let _current = lineage.current();
    let inserted = lineage.trace().len();
    let descent = Descent {
        origin: lineage.origin(s),
        bits: lineage.bits(s),
    };
    let word = state_word(alloc, states, inserted, descent)?;
    Name::copy_of(alloc, word.as_slice())
}

/// The given states, each its own origin.
fn given_descents(alloc: Global, states: u32) -> Result<Vec<Descent>, NoMemory>
    ensures { IfOk result (λ descents. descents.items ≡ spelled.given_descents states) }
{
    let mut descents = Vec::new(alloc);
    for s in 0..states {
        descents.push(Descent {
            origin: StateId(s),
            bits: Code(0),
        })?;
    }
    Ok(descents)
}

/// The descents of the copies: those of their states, with the new signal's value as bit k.
fn descents_after(
    alloc: Global,
    k: usize,
    classes: &[Class],
    descents: &[Descent],
) -> Result<Vec<Descent>, NoMemory>
    requires room { k < code_width }
    requires few { length classes.now ≤ max_states }
    requires count { length descents.now ≡ length classes.now }
    ensures { IfOk result
        (λ after. after.items ≡ spelled.descents_after k classes.now descents.now) }
{
    let copies = copies_of(alloc, classes)?;
    let mut after = Vec::new(alloc);
    for x in &copies {
        after.push(copy_descent(k, descents, *x))?;
    }
    Ok(after)
}

/// The descent of a copy.
fn copy_descent(k: usize, descents: &[Descent], x: StateCopy) -> Descent
    requires room { k < code_width }
    requires within { x.state < length descents.now }
    ensures { result ≡ spelled.copy_descent k descents.now x }
{
    let Descent { origin, bits } = descents[x.state.0 as usize];
    let bits = if x.value {
        bits.flip(Sig(k as u8))
    } else {
        bits
    };
    Descent { origin, bits }
}

/// The insertion of a step after k others.
fn insertion_of(
    alloc: Global,
    states: &Names,
    k: usize,
    descents: &[Descent],
    step: &TraceStep,
) -> Result<Insert, NoMemory>
    requires room { k ≤ code_width }
    requires count { length descents.now ≡ length step.now.partition }
    requires within { All (λ d. d.origin < length states.now) descents.now }
    ensures { IfOk result
        (λ insert. insert ≡ spelled.insertion_of states.now k descents.now step.now) }
{
    let classes = step.partition.classes();
    Ok(Insert {
        name: Name::copy_of(alloc, step.name.bytes())?,
        up: switching_words(alloc, states, k, descents, classes, true)?,
        down: switching_words(alloc, states, k, descents, classes, false)?,
    })
}

/// The words of the states at which the signal switches in that direction.
fn switching_words(
    alloc: Global,
    states: &Names,
    k: usize,
    descents: &[Descent],
    classes: &[Class],
    up: bool,
) -> Result<NameList, NoMemory>
    requires room { k ≤ code_width }
    requires count { length descents.now ≡ length classes.now }
    requires within { All (λ d. d.origin < length states.now) descents.now }
    ensures { IfOk result (λ words. words
        ≡ spelled.switching_words states.now k descents.now classes.now up) }
{
    let mut words = NameList::new(alloc);
    for s in 0..classes.len() {
        if classes[s].switches(up) {
            let word = state_word(alloc, states, k, descents[s])?;
            words.push(word.as_slice())?;
        }
    }
    Ok(words)
}

/// The word of a state after k insertions: the name of the given state from which it comes, and,
/// where k isn't 0, `@` and the values of the k inserted signals in order of insertion. It fails only
/// where memory runs out.
pub fn state_word(
    alloc: Global,
    states: &Names,
    k: usize,
    descent: Descent,
) -> Result<Vec<u8>, NoMemory>
    requires room { k ≤ code_width }
    requires within { descent.origin < length states.now }
    ensures { IfOk result (λ word. word.items ≡ spelled.state_word states.now k descent) }
{
    let mut word = Vec::from_slice(alloc, states.get(descent.origin.0))?;
    add_mark(&mut word, k, descent.bits)?;
    Ok(word)
}

/// Adds `@` and the first k bits, or nothing where k is 0.
fn add_mark(word: &mut Vec<u8>, k: usize, bits: Code) -> Result<(), NoMemory>
    requires { k ≤ code_width }
    ensures { OnOk result (word.new.items ≡ word.old.items ++ spelled.mark k bits) }
{
    if k == 0 {
        return Ok(());
    }
    word.push(b'@')?;
    for i in 0..k {
        word.push(digit(bits.get(Sig(i as u8))))?;
    }
    Ok(())
}

/// The digit of a value.
fn digit(value: bool) -> u8
    ensures { result ≡ spelled.digit value }
{
    if value { b'1' } else { b'0' }
}
