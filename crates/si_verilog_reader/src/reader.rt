//! The reader of texts of modules.

ghost use Rattle.std.specs.Prelude.{◌≡◌, ◌-◌, IfOk, None, Err, map};
ghost use Rattle.si_equations.specs.Equations.{ended};
ghost use Rattle.si_equations_reader.specs.Held.{AreCounted, Refuses, Spells, progress_now};
ghost use Rattle.si_equations_reader.specs.Read.{equations_now};
ghost use Rattle.si_tokens.specs.Loops.Parts.{Reads};
ghost use Rattle.si_words.specs.Ends.{after_last as line_after_last};
ghost use Rattle.si_verilog_reader.specs.Loops.Held.{cell_now};
ghost use Rattle.si_verilog_reader.specs.Modules as spec;

use crate::cells::{Cell, read_cells};
use crate::heads::{Rule, read_head, read_ports};
use crate::items::read_items;
use crate::parts::fault_at;
use crate::source::Source;
use si_base::fault::{TextFault, TextKind};
use si_equations_reader::equations::Equations;
use si_equations_reader::progress::Progress;
use si_equations_reader::reader::checked;
use si_tokens::fault::{ReadFault, Stop};
use si_words::ends::after_last;
use std::alloc::Global;

/// That nothing is left.
fn read_end<'a>(source: &mut Source<'a>, circuit: Progress<'a>) -> Result<Progress<'a>, ReadFault>
    requires { AreCounted circuit }
    ensures end { Reads progress_now result (spec.at_end (progress_now circuit.entry) source.old) }
    ensures counted { IfOk result AreCounted }
{
    match source.next() {
        None => Ok(circuit),
        Some(placed) => Err(fault_at(placed.line, TextKind::BadWord)),
    }
}

/// The last module.
#[tactic(auto, unfolding(crate::specs::Modules::circuit_at))]
fn read_circuit<'a>(
    alloc: Global,
    source: &mut Source<'a>,
    cells: &[Cell<'a>],
) -> Result<Progress<'a>, ReadFault>
    ensures circuit { Reads progress_now result
        (spec.circuit_at (map cell_now cells.now) source.old) }
    ensures counted { IfOk result AreCounted }
{
    let _head = read_head(source)?;
    let ports = read_ports(alloc, source, Rule::OfCircuit)?;
    let circuit = Progress::of_lists(alloc, ports.inputs, ports.outputs)?;
    let circuit = read_items(alloc, source, cells, circuit)?;
    read_end(source, circuit)
}

/// All modules.
#[tactic(auto, unfolding(crate::specs::Modules::modules_at))]
fn read_all<'a>(alloc: Global, source: &mut Source<'a>) -> Result<Progress<'a>, ReadFault>
    ensures modules { Reads progress_now result (spec.modules_at source.old) }
    ensures counted { IfOk result AreCounted }
{
    let count = source.modules().saturating_sub(1);
    let cells = read_cells(alloc, source, count)?;
    read_circuit(alloc, source, cells.as_slice())
}

/// The fault where reading stops.
fn stop_fault(text: &[u8], stop: Stop) -> TextFault
    ensures { Refuses result (ended (line_after_last text.now) None (Err stop)) }
{
    match stop {
        Stop::Cut => TextFault::At {
            line: after_last(text),
            kind: TextKind::NoEnd,
        },
        Stop::Fault { line, kind } => TextFault::At { line, kind },
    }
}

/// The equations that a text of modules spells.
///
/// The last module is the circuit: its inputs and outputs, and an equation for each assign and for
/// each instance of a cell. Each module before it is a cell, with one output and its assign. A
/// signal that has an equation and is no port is internal.
///
/// # Errors
///
/// `At` the line of the first fault, exactly where the text has one. A symbol that isn't the one
/// that is due is `BadWord`. A name of a port or a net of the circuit that is no signal name is
/// `BadName`. A name that stands twice among the ports of a module, the cells or the ports of an
/// instance, an equation of an input and a second one of a signal are `Repeated`; one too many are
/// `TooManySignals` and `TooManyCells`. A cell or a port that isn't there is `Undeclared`, as are a
/// name in a cell's expression that is no port, an assign of a cell that isn't that of its only
/// output, and an instance of which a port isn't connected. A symbol with which an expression can't
/// go on is `BadExpression`; one operator too many whose operand isn't finished is `TooDeep`, as is
/// a cell with more than [`MAX_SYMBOLS`](crate::limits::MAX_SYMBOLS) symbols. A text that ends
/// within a module is `NoEnd` at the line after the last. Behind all these, the first equation with
/// a name that no signal has is `Undeclared` at its line, and an output without an equation is
/// `Undeclared` at the line after the last. `NoMemory` only where memory runs out.
#[tactic(auto, unfolding(crate::specs::Modules::modules_in))]
pub fn read_modules<'a>(alloc: Global, text: &'a [u8]) -> Result<Equations<'a>, TextFault>
    ensures { Spells equations_now result (spec.modules_in text.now) }
{
    let mut source = Source::new(text);
    match read_all(alloc, &mut source) {
        Ok(read) => checked(alloc, text, read),
        Err(ReadFault::NoMemory) => Err(TextFault::NoMemory),
        Err(ReadFault::Stop(stop)) => Err(stop_fault(text, stop)),
    }
}
