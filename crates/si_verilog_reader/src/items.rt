//! Items of the circuit's module.

ghost use Rattle.std.specs.Prelude.{◌≡◌, IfOk, OnOk, map};
ghost use Rattle.si_genlib.specs.Expression.{value_of};
ghost use Rattle.si_equations.specs.Equations.{Equations};
ghost use Rattle.si_equations_reader.specs.Held.{AreCounted, progress_now};
ghost use Rattle.si_equations_reader.specs.Steps.{tree_of};
ghost use Rattle.si_tokens.specs.Loops.Parts.{Reads};
ghost use Rattle.si_verilog_reader.specs.Loops.Held.{cell_now, placed_now};
ghost use Rattle.si_verilog_reader.specs.Modules as spec;
ghost use Rattle.si_verilog_reader.specs.Parts.{all_parts};

use crate::assigns::read_assign;
use crate::cells::{Cell, cell_named};
use crate::connections::read_connections;
use crate::expression::Allowed;
use crate::instance::{connected_steps, net_of};
use crate::parts::{fault_at, if_good, next, read_mark, read_name};
use crate::source::{Source, Symbol};
use si_base::fault::TextKind;
use si_equations_reader::progress::Progress;
use si_equations_reader::step::Step;
use si_tokens::fault::ReadFault;
use std::alloc::Global;

/// Adds the equation of a signal.
fn add_signal<'a>(
    circuit: &mut Progress<'a>,
    line: u64,
    name: &'a [u8],
    steps: Vec<Step<'a>>,
) -> Result<(), ReadFault>
    requires { AreCounted circuit.old }
    ensures signal { Reads (λ done. progress_now circuit.new) result
        (spec.with_signal (progress_now circuit.old) line name.now (tree_of steps.entry.items)) }
    ensures counted { OnOk result (AreCounted circuit.new) }
{
    if_good(line, circuit.equation_kind(name))?;
    circuit.add(line, name, steps)?;
    Ok(())
}

/// Behind `assign`.
#[tactic(auto, unfolding(crate::specs::Modules::assign_behind))]
fn add_assign<'a>(
    alloc: Global,
    source: &mut Source<'a>,
    circuit: &mut Progress<'a>,
) -> Result<(), ReadFault>
    requires { AreCounted circuit.old }
    ensures assign { Reads (λ done. (progress_now circuit.new, source.new)) result
        (spec.assign_behind (progress_now circuit.old) source.old) }
    ensures counted { OnOk result (AreCounted circuit.new) }
{
    let assign = read_assign(alloc, source, Allowed::Signals)?;
    add_signal(circuit, assign.line, assign.name, assign.steps)
}

/// Behind the name of a cell, which stands on that line.
#[tactic(auto, unfolding(crate::specs::Modules::instance_behind))]
fn add_instance<'a>(
    alloc: Global,
    source: &mut Source<'a>,
    cells: &[Cell<'a>],
    circuit: &mut Progress<'a>,
    line: u64,
    name: &[u8],
) -> Result<(), ReadFault>
    requires { AreCounted circuit.old }
    ensures instance { Reads (λ done. (progress_now circuit.new, source.new)) result
        (spec.instance_behind (map cell_now cells.now) (progress_now circuit.old) line name.now
        source.old) }
    ensures counted { OnOk result (AreCounted circuit.new) }
{
    let cell = cell_named(cells, line, name)?;
    let connections = read_connections(alloc, source, line, &cell.ports)?;
    let steps = connected_steps(alloc, connections.as_slice(), cell.steps.as_slice())?;
    let signal = net_of(connections.as_slice(), cell.output);
    add_signal(circuit, line, signal, steps)
}

/// `NAME;`, behind `wire`: it means nothing more.
#[tactic(auto, unfolding(crate::specs::Modules::wire_behind))]
fn pass_wire(source: &mut Source<'_>) -> Result<(), ReadFault>
    ensures { (e : Equations) → Reads (λ done. (e, source.new)) result
        (spec.wire_behind e source.old) }
{
    let _name = read_name(source)?;
    read_mark(source, b';')?;
    Ok(())
}

/// The next item. Answers whether one more follows.
#[tactic(auto, unfolding(crate::specs::Modules::item_at))]
fn read_item<'a>(
    alloc: Global,
    source: &mut Source<'a>,
    cells: &[Cell<'a>],
    circuit: &mut Progress<'a>,
) -> Result<bool, ReadFault>
    requires { AreCounted circuit.old }
    ensures item { Reads (λ more. ((more, progress_now circuit.new), source.new)) result
        (spec.item_at (map cell_now cells.now) (progress_now circuit.old) source.old) }
    ensures counted { OnOk result (AreCounted circuit.new) }
{
    let first = next(source)?;
    match first.symbol {
        Symbol::Name(name) => {
            add_instance(alloc, source, cells, circuit, first.line, name)?;
            Ok(true)
        }
        Symbol::Word(word) => {
            if b"wire".as_slice() == word {
                pass_wire(source)?;
                Ok(true)
            } else if b"assign".as_slice() == word {
                add_assign(alloc, source, circuit)?;
                Ok(true)
            } else if b"endmodule".as_slice() == word {
                Ok(false)
            } else {
                Err(fault_at(first.line, TextKind::BadWord))
            }
        }
        Symbol::Mark(_) => Err(fault_at(first.line, TextKind::BadWord)),
    }
}

/// All items of the circuit, up to `endmodule`.
pub(crate) fn read_items<'a>(
    alloc: Global,
    source: &mut Source<'a>,
    cells: &[Cell<'a>],
    circuit: Progress<'a>,
) -> Result<Progress<'a>, ReadFault>
    requires { AreCounted circuit }
    ensures items { Reads (λ p. (progress_now p, source.new)) result
        (all_parts (spec.item_at (map cell_now cells.now)) (progress_now circuit.entry)
        source.old) }
    ensures counted { IfOk result AreCounted }
{
    let mut circuit = circuit;
    while read_item(alloc, source, cells, &mut circuit)? {}
    Ok(circuit)
}
