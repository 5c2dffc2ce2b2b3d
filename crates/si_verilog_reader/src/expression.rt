//! Expressions of Verilog, read symbol by symbol.

ghost use Rattle.std.specs.Prelude.{◌≡◌};
ghost use Rattle.si_equations_reader.specs.Loops.Machine.{state_now, Steps};
ghost use Rattle.si_equations_reader.specs.Loops.Machine.{symbol_now as meant_now};
ghost use Rattle.si_equations_reader.specs.Loops.Machine.{ToldAt};
ghost use Rattle.si_equations_reader.specs.Steps.{tree_of};
ghost use Rattle.si_tokens.specs.Loops.Parts.{Reads};
ghost use Rattle.si_verilog_reader.specs.Expressions as spec;
ghost use Rattle.si_verilog_reader.specs.Loops.Held.{symbol_now};
ghost use Rattle.si_verilog_reader.specs.Loops.Names.{fault_of};
ghost use Rattle.si_verilog_reader.specs.Modules.{signal_fault};

use crate::heads::Ports;
use crate::parts::{fault_at, if_good};
use crate::source::{Source, Symbol};
use si_base::fault::{LineFault, TextKind};
use si_equations_reader::machine::Reading;
use si_equations_reader::step::Step;
use si_equations_reader::symbol::Symbol as Meant;
use si_tokens::fault::{ReadFault, Stop};
use si_words::words::is_signal_name;
use std::alloc::Global;

/// Which names an expression may have.
#[derive(Clone, Copy)]
pub(crate) enum Allowed<'n> {
    /// Names of signals.
    Signals,
    /// These ports.
    Ports(&'n Ports),
}

impl Allowed<'_> {
    /// The fault of a name.
    pub(crate) fn kind(&self, name: &[u8]) -> Option<TextKind>
        ensures { result ≡ fault_of self.now name.now }
    {
        match self {
            Allowed::Signals => signal_kind(name),
            Allowed::Ports(ports) => {
                if ports.has(name) {
                    return None;
                }
                Some(TextKind::Undeclared)
            }
        }
    }

    /// The fault of a symbol that is a name.
    fn kind_of(&self, symbol: Symbol<'_>) -> Option<TextKind>
        ensures { result ≡ spec.fault_in (fault_of self.now) (symbol_now symbol.entry) }
    {
        match symbol {
            Symbol::Name(name) => self.kind(name),
            Symbol::Word(_) => None,
            Symbol::Mark(_) => None,
        }
    }
}

/// The fault of the name of a signal.
pub(crate) fn signal_kind(name: &[u8]) -> Option<TextKind>
    ensures { result ≡ signal_fault name.now }
{
    if is_signal_name(name) {
        return None;
    }
    Some(TextKind::BadName)
}

fn meant_mark<'a>(byte: u8) -> Meant<'a>
    ensures { meant_now result ≡ spec.meant_mark byte }
{
    if byte == b'~' {
        Meant::Complement
    } else if byte == b'&' {
        Meant::Times
    } else if byte == b'|' {
        Meant::Plus
    } else if byte == b'(' {
        Meant::Open
    } else if byte == b')' {
        Meant::Close
    } else if byte == b';' {
        Meant::End
    } else {
        Meant::Other
    }
}

/// What the symbol is in an expression.
fn meant(symbol: Symbol<'_>) -> Meant<'_>
    ensures { meant_now result ≡ spec.meant (symbol_now symbol.entry) }
{
    match symbol {
        Symbol::Name(name) => Meant::Pin(name),
        Symbol::Word(word) => {
            if b"1'b0".as_slice() == word {
                Meant::Constant(false)
            } else if b"1'b1".as_slice() == word {
                Meant::Constant(true)
            } else {
                Meant::Other
            }
        }
        Symbol::Mark(byte) => meant_mark(byte),
    }
}

fn begins_operand(symbol: Meant<'_>) -> bool
    ensures { result ≡ spec.begins_operand (meant_now symbol.entry) }
{
    match symbol {
        Meant::Pin(_) => true,
        Meant::Constant(_) => true,
        Meant::Complement => true,
        Meant::Open => true,
        Meant::Prime => false,
        Meant::Times => false,
        Meant::Plus => false,
        Meant::Close => false,
        Meant::End => false,
        Meant::Other => false,
    }
}

/// Reads the next symbol. Answers whether it ends the expression.
#[tactic(auto, unfolding(crate::specs::Expressions::stepped))]
fn step<'a>(reading: &mut Reading<'a>, symbol: Meant<'a>) -> Result<bool, LineFault>
    ensures { Steps result reading.new
        (spec.stepped (state_now reading.old) (meant_now symbol.entry)) }
{
    if reading.has_operand() && begins_operand(symbol) {
        return Err(LineFault::Kind(TextKind::BadExpression));
    }
    reading.step(symbol)
}

/// The fault of a symbol with its line.
fn at_line(line: u64, fault: LineFault) -> ReadFault
    ensures { ToldAt fault line result }
{
    match fault {
        LineFault::NoMemory => ReadFault::NoMemory,
        LineFault::Kind(kind) => fault_at(line, kind),
    }
}

/// The steps of an expression, up to the `;` that ends it.
#[tactic(auto, unfolding(crate::specs::Expressions::expression_at))]
pub(crate) fn read_expression<'a>(
    alloc: Global,
    source: &mut Source<'a>,
    allowed: Allowed<'_>,
) -> Result<Vec<Step<'a>>, ReadFault>
    ensures { Reads (λ v. (tree_of v.items, source.new)) result
        (spec.expression_at (fault_of allowed.entry) source.old) }
{
    let mut reading = Reading::new(alloc);
    while let Some(placed) = source.next() {
        if_good(placed.line, allowed.kind_of(placed.symbol))?;
        match step(&mut reading, meant(placed.symbol)) {
            Ok(false) => {}
            Ok(true) => return Ok(reading.into_steps()),
            Err(fault) => return Err(at_line(placed.line, fault)),
        }
    }
    Err(ReadFault::Stop(Stop::Cut))
}
