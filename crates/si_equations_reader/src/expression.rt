//! Expressions, read from a text.

ghost use Rattle.std.specs.Prelude.{◌≡◌};
ghost use Rattle.si_genlib.specs.Expression.{read, start, trees};
ghost use Rattle.si_tokens.specs.Loops.Parts.{left, Reads};
ghost use Rattle.si_tokens.specs.Unread.{tokens};
ghost use Rattle.si_equations_reader.specs.Loops.Machine.{ToldAt};
ghost use Rattle.si_equations_reader.specs.Steps.{tree_of};

use crate::machine::Reading;
use crate::marks::fault_at;
use crate::step::Step;
use crate::symbol::symbol_of;
use si_base::fault::LineFault;
use si_tokens::fault::{ReadFault, Stop};
use si_tokens::source::Source;
use std::alloc::Global;

/// The fault of a token with its line.
fn at_line(line: u64, fault: LineFault) -> ReadFault
    ensures { ToldAt fault line result }
{
    match fault {
        LineFault::NoMemory => ReadFault::NoMemory,
        LineFault::Kind(kind) => fault_at(line, kind),
    }
}

/// The steps of an expression, up to the `;` that ends it.
pub(crate) fn read_expression<'a>(
    alloc: Global,
    source: &mut Source<'a>,
) -> Result<Vec<Step<'a>>, ReadFault>
    ensures { Reads (λ v. (tree_of v.items, left source.new)) result
        (read trees start (tokens (left source.old))) }
{
    let mut reading = Reading::new(alloc);
    while let Some(token) = source.next_token() {
        match reading.step(symbol_of(token.bytes)) {
            Ok(false) => {}
            Ok(true) => return Ok(reading.steps),
            Err(fault) => return Err(at_line(token.line, fault)),
        }
    }
    Err(ReadFault::Stop(Stop::Cut))
}
