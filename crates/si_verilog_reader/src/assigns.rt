//! Assigns.

ghost use Rattle.std.specs.Prelude.{◌≡◌};
ghost use Rattle.si_tokens.specs.Loops.Parts.{Reads};
ghost use Rattle.si_verilog_reader.specs.Loops.Held.{assign_now};
ghost use Rattle.si_verilog_reader.specs.Loops.Names.{fault_of};
ghost use Rattle.si_verilog_reader.specs.Modules as spec;

use crate::expression::{Allowed, read_expression};
use crate::parts::{read_mark, read_name};
use crate::source::Source;
use si_equations_reader::step::Step;
use si_tokens::fault::ReadFault;
use std::alloc::Global;

/// A signal, and the expression that drives it.
#[derive(Drop)]
pub(crate) struct Assign<'a> {
    pub(crate) line: u64,
    pub(crate) name: &'a [u8],
    pub(crate) steps: Vec<Step<'a>>,
}

/// `NAME = EXPRESSION;`, behind `assign`.
#[tactic(auto, unfolding(crate::specs::Modules::assign_at))]
pub(crate) fn read_assign<'a>(
    alloc: Global,
    source: &mut Source<'a>,
    allowed: Allowed<'_>,
) -> Result<Assign<'a>, ReadFault>
    ensures { Reads (λ a. (assign_now a, source.new)) result
        (spec.assign_at (fault_of allowed.entry) source.old) }
{
    let name = read_name(source)?;
    read_mark(source, b'=')?;
    let steps = read_expression(alloc, source, allowed)?;
    Ok(Assign {
        line: name.line,
        name: name.name,
        steps,
    })
}
