//! Parts that are due, and faults with their lines.

ghost use Rattle.std.specs.Prelude.{◌≡◌};
ghost use Rattle.si_tokens.specs.Loops.Parts.{Reads};
ghost use Rattle.si_tokens.specs.declared.fault.ReadFault.TheVariants as faults;
ghost use Rattle.si_tokens.specs.declared.fault.Stop.TheVariants as stops;
ghost use Rattle.si_verilog.specs.Symbols.{Mark as MarkSeen, Word as WordSeen};
ghost use Rattle.si_verilog_reader.specs.Loops.Held.{named_now, placed_now};
ghost use Rattle.si_verilog_reader.specs.Parts as spec;

use crate::source::{Placed, Source, Symbol};
use si_base::fault::TextKind;
use si_tokens::fault::{ReadFault, Stop};

/// A name, and the line on which it stands.
#[derive(Clone, Copy)]
pub(crate) struct Named<'a> {
    pub(crate) line: u64,
    pub(crate) name: &'a [u8],
}

/// The fault of this line.
pub(crate) fn fault_at(line: u64, kind: TextKind) -> ReadFault
    ensures { result ≡ faults.Stop (stops.Fault line kind) }
{
    ReadFault::Stop(Stop::Fault { line, kind })
}

/// Nothing, if there is no fault at that line.
pub(crate) fn if_good(line: u64, kind: Option<TextKind>) -> Result<(), ReadFault>
    ensures { Reads (λ done. done) result (spec.if_good line kind tt) }
{
    match kind {
        Some(kind) => Err(fault_at(line, kind)),
        None => Ok(()),
    }
}

/// Takes the next symbol.
pub(crate) fn next<'a>(source: &mut Source<'a>) -> Result<Placed<'a>, ReadFault>
    ensures { Reads (λ p. (placed_now p, source.new)) result (spec.next source.old) }
{
    match source.next() {
        Some(placed) => Ok(placed),
        None => Err(ReadFault::Stop(Stop::Cut)),
    }
}

/// Takes a keyword, which has to be this one.
#[tactic(auto, unfolding(crate::specs::Parts::due))]
pub(crate) fn read_word(source: &mut Source<'_>, word: &[u8]) -> Result<(), ReadFault>
    ensures { Reads (λ done. source.new) result (spec.due (WordSeen word.now) source.old) }
{
    let placed = next(source)?;
    match placed.symbol {
        Symbol::Word(here) => {
            if word != here {
                return Err(fault_at(placed.line, TextKind::BadWord));
            }
            Ok(())
        }
        Symbol::Name(_) => Err(fault_at(placed.line, TextKind::BadWord)),
        Symbol::Mark(_) => Err(fault_at(placed.line, TextKind::BadWord)),
    }
}

/// Takes a mark, which has to be this one.
#[tactic(auto, unfolding(crate::specs::Parts::due))]
pub(crate) fn read_mark(source: &mut Source<'_>, mark: u8) -> Result<(), ReadFault>
    ensures { Reads (λ done. source.new) result (spec.due (MarkSeen mark) source.old) }
{
    let placed = next(source)?;
    match placed.symbol {
        Symbol::Mark(here) => {
            if mark != here {
                return Err(fault_at(placed.line, TextKind::BadWord));
            }
            Ok(())
        }
        Symbol::Name(_) => Err(fault_at(placed.line, TextKind::BadWord)),
        Symbol::Word(_) => Err(fault_at(placed.line, TextKind::BadWord)),
    }
}

/// Takes a name.
#[tactic(auto, unfolding(crate::specs::Parts::name_at))]
pub(crate) fn read_name<'a>(source: &mut Source<'a>) -> Result<Named<'a>, ReadFault>
    ensures { Reads (λ n. (named_now n, source.new)) result (spec.name_at source.old) }
{
    let placed = next(source)?;
    match placed.symbol {
        Symbol::Name(name) => Ok(Named {
            line: placed.line,
            name,
        }),
        Symbol::Word(_) => Err(fault_at(placed.line, TextKind::BadWord)),
        Symbol::Mark(_) => Err(fault_at(placed.line, TextKind::BadWord)),
    }
}

/// Takes `,` or `)`. Answers whether one more part of a list follows.
#[tactic(auto, unfolding(crate::specs::Parts::goes_on))]
pub(crate) fn goes_on(source: &mut Source<'_>) -> Result<bool, ReadFault>
    ensures { Reads (λ more. (more, source.new)) result (spec.goes_on source.old) }
{
    let placed = next(source)?;
    match placed.symbol {
        Symbol::Mark(b',') => Ok(true),
        Symbol::Mark(b')') => Ok(false),
        Symbol::Mark(_) => Err(fault_at(placed.line, TextKind::BadWord)),
        Symbol::Name(_) => Err(fault_at(placed.line, TextKind::BadWord)),
        Symbol::Word(_) => Err(fault_at(placed.line, TextKind::BadWord)),
    }
}
