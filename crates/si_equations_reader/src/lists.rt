//! The two lists of names, and the inputs and signals that they tell.

ghost use Rattle.std.specs.Prelude.{◌≡◌, ◌≤◌, ◌++◌, [], None, IfOk, OnOk, length};
ghost use Rattle.si_base.specs.Faults.{first_after};
ghost use Rattle.si_base.specs.Limits.{max_signals};
ghost use Rattle.si_equations.specs.Equations.{list_at, names_from, without};
ghost use Rattle.si_tokens.specs.Loops.Parts.{left, Reads};
ghost use Rattle.si_tokens.specs.Unread.{tokens};
ghost use Rattle.si_words.specs.Names.{name_fault};

use crate::marks::{ends_expression, fault_at, read_mark};
use crate::names::{bare, name_kind, push};
use si_base::ids::NoMemory;
use si_base::names::Names;
use si_tokens::fault::{ReadFault, Stop};
use si_tokens::source::Source;
use si_words::lists::has;

/// The names up to the `;`, behind those of another list.
fn read_names(source: &mut Source<'_>, others: &Names) -> Result<Names, ReadFault>
    requires { length others.now ≤ max_signals }
    ensures { Reads (λ names. (names, left source.new)) result
        (names_from others.now [] (tokens (left source.old))) }
{
    let mut names = others.empty_like();
    let mut count = others.len();
    while let Some(token) = source.next_token() {
        if ends_expression(token.bytes) {
            return Ok(names);
        }
        let name = bare(token.bytes);
        if let Some(kind) = name_kind(others, &names, count, name) {
            return Err(fault_at(token.line, kind));
        }
        // one that the other list has is no further signal
        if !has(others, name) {
            count += 1;
        }
        push(&mut names, name)?;
    }
    Err(ReadFault::Stop(Stop::Cut))
}

/// `WORD = NAMES;`, behind the names of another list.
#[tactic(auto, unfolding(si_equations::specs::Equations::list_at))]
pub(crate) fn read_list(
    source: &mut Source<'_>,
    word: &[u8],
    others: &Names,
) -> Result<Names, ReadFault>
    requires { length others.now ≤ max_signals }
    ensures { Reads (λ names. (names, left source.new)) result
        (list_at word.now others.now (left source.old)) }
{
    read_mark(source, word)?;
    read_mark(source, b"=")?;
    read_names(source, others)
}

/// The inputs: the names of the first list that are no outputs.
pub(crate) fn inputs_of(listed: &Names, outputs: &Names) -> Result<Names, NoMemory>
    requires { first_after (name_fault max_signals) [] (without outputs.now listed.now) ≡ None }
    ensures { IfOk result (λ inputs. inputs ≡ without outputs.now listed.now) }
{
    let mut inputs = listed.empty_like();
    let count = listed.len();
    for k in 0..count {
        let name = listed.get(k);
        if !has(outputs, name) {
            push(&mut inputs, name)?;
        }
    }
    Ok(inputs)
}

/// Puts more names last.
fn add_all(signals: &mut Names, names: &Names) -> Result<(), NoMemory>
    requires { first_after (name_fault max_signals) signals.old names.now ≡ None }
    ensures { OnOk result (signals.new ≡ signals.old ++ names.now) }
{
    let count = names.len();
    for k in 0..count {
        push(signals, names.get(k))?;
    }
    Ok(())
}

/// The inputs, and behind them the outputs.
pub(crate) fn signals_of(inputs: &Names, outputs: &Names) -> Result<Names, NoMemory>
    requires { first_after (name_fault max_signals) [] (inputs.now ++ outputs.now) ≡ None }
    ensures { IfOk result (λ signals. signals ≡ inputs.now ++ outputs.now) }
{
    let mut signals = inputs.empty_like();
    add_all(&mut signals, inputs)?;
    add_all(&mut signals, outputs)?;
    Ok(signals)
}
