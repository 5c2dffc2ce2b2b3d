//! The reader of texts of equations.

ghost use Rattle.std.specs.Prelude.{◌≡◌, IfOk, Some, None, Err, option_map};
ghost use Rattle.si_base.specs.Faults.{first_in};
ghost use Rattle.si_base.specs.Lines.{numbered};
ghost use Rattle.si_base.specs.declared.fault.TextKind.TheVariants.{Undeclared};
ghost use Rattle.si_equations.specs.Equations as spec;
ghost use Rattle.si_tokens.specs.Unread as unread;
ghost use Rattle.si_tokens.specs.declared.fault.Stop.TheVariants as stops;
ghost use Rattle.si_words.specs.Ends.{after_last as line_after_last};
ghost use Rattle.si_equations_reader.specs.Held.{AreCounted, progress_now, Spells, Refuses};
ghost use Rattle.si_equations_reader.specs.Read.{equations_now};

use crate::equations::Equations;
use crate::meaning::{Meaning, evaluate};
use crate::progress::Progress;
use crate::statements::read_statements;
use si_base::fault::{TextFault, TextKind};
use si_base::ids::NoMemory;
use si_base::lines::{Lines, has_bad_byte};
use si_tokens::fault::{ReadFault, Stop};
use si_tokens::source::Source;
use si_words::ends::after_last;
use std::alloc::Global;

/// The number of the first line that has a bad byte.
fn bad_line(text: &[u8]) -> Option<u64>
    ensures { result ≡ unread.bad_line (numbered text.now) }
{
    let mut lines = Lines::new(text);
    while let Some(line) = lines.next_line() {
        if has_bad_byte(line.bytes) {
            return Some(line.number);
        }
    }
    None
}

/// The fault where the lines that can be read end inside a statement.
fn cut_fault(text: &[u8]) -> TextFault
    ensures { Refuses result (spec.ended (line_after_last text.now)
        (unread.bad_line (numbered text.now)) (Err stops.Cut)) }
{
    match bad_line(text) {
        Some(line) => TextFault::At {
            line,
            kind: TextKind::BadByte,
        },
        None => TextFault::At {
            line: after_last(text),
            kind: TextKind::NoEnd,
        },
    }
}

fn stop_fault(text: &[u8], stop: Stop) -> TextFault
    ensures { Refuses result (spec.ended (line_after_last text.now)
        (unread.bad_line (numbered text.now)) (Err stop)) }
{
    match stop {
        Stop::Cut => cut_fault(text),
        Stop::Fault { line, kind } => TextFault::At { line, kind },
    }
}

/// The line of the first equation with a name that no signal has.
fn undeclared_line(alloc: Global, read: &Progress<'_>) -> Result<Option<u64>, NoMemory>
    requires { AreCounted read.now }
    ensures { IfOk result (λ line. first_in (spec.undeclared (spec.signals (progress_now read.now)))
        (progress_now read.now).equations ≡ option_map (λ n. (n, Undeclared)) line) }
{
    let meaning = Meaning::Known(&read.signals);
    for equation in &read.equations {
        if !evaluate(alloc, &meaning, &equation.steps)? {
            return Ok(Some(equation.line));
        }
    }
    Ok(None)
}

/// The equations that are read of the text, if each name in them is that of a signal, and each
/// output has one.
///
/// # Errors
///
/// The first equation with a name that no signal has is `Undeclared` at its line; else an output
/// without an equation is `Undeclared` at the line after the last. `NoMemory` only where memory runs
/// out.
pub fn checked<'a>(
    alloc: Global,
    text: &[u8],
    read: Progress<'a>,
) -> Result<Equations<'a>, TextFault>
    requires { AreCounted read }
    ensures { Spells equations_now result (spec.unless
        (spec.last_fault (line_after_last text.now) (progress_now read.entry))
        (progress_now read.entry)) }
{
    if let Some(line) = undeclared_line(alloc, &read)? {
        return Err(TextFault::At {
            line,
            kind: TextKind::Undeclared,
        });
    }
    if !read.has_all_outputs() {
        return Err(TextFault::At {
            line: after_last(text),
            kind: TextKind::Undeclared,
        });
    }
    Ok(Equations::of(read))
}

/// The equations that the text spells.
///
/// The text is `INORDER = NAMES;`, `OUTORDER = NAMES;`, and behind them `NAME = EXPRESSION;` for
/// each signal that isn't an input. A name of both lists is an output that is fed back, and no
/// input. A name in brackets is the same as without them; expressions are those of genlib. A signal
/// that has an equation and stands in neither list is internal.
///
/// # Errors
///
/// `At` the line of the first fault, exactly where the text has one. A line's `BadByte` comes when
/// the line begins. A token that isn't the one that is due, as `=`, is `BadWord`. A name that is no
/// signal name is `BadName`; one that stands in its list already, an equation of an input and a
/// second one of a signal are `Repeated`; a signal beyond
/// [`MAX_SIGNALS`](si_base::limits::MAX_SIGNALS) is `TooManySignals`. A token with which an
/// expression can't go on is `BadExpression`; one operator too many whose operand isn't finished is
/// `TooDeep`. A text that ends within a statement is `NoEnd` at the line after the last. Behind all
/// these, the first equation with a name that no signal has is `Undeclared` at its line, and an
/// output without an equation is `Undeclared` at the line after the last. `NoMemory` only where
/// memory runs out.
#[tactic(auto, unfolding(si_equations::specs::Equations::equations_in))]
pub fn read_equations<'a>(alloc: Global, text: &'a [u8]) -> Result<Equations<'a>, TextFault>
    ensures { Spells equations_now result (spec.equations_in text.now) }
{
    let mut source = Source::new(text);
    match read_statements(alloc, &mut source) {
        Ok(read) => match bad_line(text) {
            Some(line) => Err(TextFault::At {
                line,
                kind: TextKind::BadByte,
            }),
            None => checked(alloc, text, read),
        },
        Err(ReadFault::NoMemory) => Err(TextFault::NoMemory),
        Err(ReadFault::Stop(stop)) => Err(stop_fault(text, stop)),
    }
}
