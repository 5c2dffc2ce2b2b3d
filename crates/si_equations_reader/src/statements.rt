//! Statements of a text of equations.

ghost use Rattle.std.specs.Prelude.{◌≡◌, ◌++◌, [], None, OnOk, IfOk};
ghost use Rattle.si_base.specs.Faults.{first_after};
ghost use Rattle.si_base.specs.Limits.{max_signals};
ghost use Rattle.si_equations.specs.Equations.{without, lists_at, statements_at};
ghost use Rattle.si_tokens.specs.Loops.Parts.{left, piece, Reads};
ghost use Rattle.si_words.specs.Names.{name_fault};
ghost use Rattle.si_equations_reader.specs.Held.{AreCounted, progress_now};
ghost use Rattle.si_equations_reader.specs.Loops.Statements.{equation_behind, only_lists};

use crate::expression::read_expression;
use crate::lists::{inputs_of, read_list};
use crate::marks::{fault_at, read_mark};
use crate::names::bare;
use crate::progress::Progress;
use si_base::ids::NoMemory;
use si_base::names::Names;
use si_tokens::fault::ReadFault;
use si_tokens::source::{Part, Source};
use std::alloc::Global;

/// The signals that two lists tell, and no equation yet.
fn begin<'a>(alloc: Global, listed: &Names, outputs: Names) -> Result<Progress<'a>, NoMemory>
    requires { first_after (name_fault max_signals) []
        (without outputs listed.now ++ outputs) ≡ None }
    ensures lists { IfOk result (λ p. progress_now p
        ≡ only_lists (without outputs listed.now) outputs) }
    ensures counted { IfOk result AreCounted }
{
    let inputs = inputs_of(listed, &outputs)?;
    Progress::of_lists(alloc, inputs, outputs)
}

/// The two lists.
#[tactic(auto, unfolding(si_equations::specs::Equations::lists_at))]
fn read_lists<'a>(alloc: Global, source: &mut Source<'a>) -> Result<Progress<'a>, ReadFault>
    ensures lists { Reads (λ p. (progress_now p, left source.new)) result
        (lists_at (left source.old)) }
    ensures counted { IfOk result AreCounted }
{
    let none = Names::new(alloc)?;
    let listed = read_list(source, b"INORDER", &none)?;
    let outputs = read_list(source, b"OUTORDER", &listed)?;
    let progress = begin(alloc, &listed, outputs)?;
    Ok(progress)
}

/// The equation that begins with this token.
fn read_equation<'a>(
    alloc: Global,
    source: &mut Source<'a>,
    progress: &mut Progress<'a>,
    first: Part<'a>,
) -> Result<(), ReadFault>
    requires { AreCounted progress.old }
    ensures equation { Reads (λ _. (progress_now progress.new, left source.new)) result
        (equation_behind (progress_now progress.old) (piece first.entry (left source.old))) }
    ensures counted { OnOk result (AreCounted progress.new) }
{
    let name = bare(first.bytes);
    if let Some(kind) = progress.equation_kind(name) {
        return Err(fault_at(first.line, kind));
    }
    read_mark(source, b"=")?;
    let steps = read_expression(alloc, source)?;
    progress.add(first.line, name, steps)?;
    Ok(())
}

/// The statements of all of the text.
pub(crate) fn read_statements<'a>(
    alloc: Global,
    source: &mut Source<'a>,
) -> Result<Progress<'a>, ReadFault>
    ensures statements { Reads (λ p. progress_now p) result (statements_at (left source.old)) }
    ensures counted { IfOk result AreCounted }
{
    let mut progress = read_lists(alloc, source)?;
    while let Some(first) = source.next_token() {
        read_equation(alloc, source, &mut progress, first)?;
    }
    Ok(progress)
}
