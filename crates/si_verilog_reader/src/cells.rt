//! Modules of cells.

ghost use Rattle.std.specs.Prelude.{◌≡◌, [], not, map};
ghost use Rattle.si_base.specs.Faults.{when};
ghost use Rattle.si_base.specs.declared.fault.TextKind.TheVariants.{Undeclared};
ghost use Rattle.si_tokens.specs.Loops.Parts.{Reads};
ghost use Rattle.si_words.specs.Names.{stands_in};
ghost use Rattle.si_verilog_reader.specs.Loops.Held.{cell_now, ports_now};
ghost use Rattle.si_verilog_reader.specs.Modules as spec;

use crate::assigns::read_assign;
use crate::expression::Allowed;
use crate::heads::{Ports, Rule, read_head, read_ports};
use crate::limits::MAX_SYMBOLS;
use crate::parts::{fault_at, if_good, read_word};
use crate::source::Source;
use si_base::fault::TextKind;
use si_base::names::Names;
use si_cell::limits::MAX_CELLS;
use si_equations_reader::step::Step;
use si_tokens::fault::ReadFault;
use std::alloc::Global;

/// A cell: its ports, and the expression of its only output.
#[derive(Drop)]
pub(crate) struct Cell<'a> {
    pub(crate) name: &'a [u8],
    pub(crate) ports: Ports,
    pub(crate) output: &'a [u8],
    pub(crate) steps: Vec<Step<'a>>,
}

/// Whether one of the cells has the name.
fn is_taken(cells: &[Cell<'_>], name: &[u8]) -> bool
    ensures { result ≡ stands_in (map (λ c. c.name) (map cell_now cells.now)) name.now }
{
    cells.iter().any(|c| name == c.name)
}

/// The fault of a cell of this name and size, behind these cells.
fn cell_kind(cells: &[Cell<'_>], name: &[u8], size: usize) -> Option<TextKind>
    ensures { result
        ≡ spec.cell_fault (map (λ c. c.name) (map cell_now cells.now)) name.now size }
{
    if is_taken(cells, name) {
        Some(TextKind::Repeated)
    } else if cells.len() >= MAX_CELLS {
        Some(TextKind::TooManyCells)
    } else if size > MAX_SYMBOLS {
        Some(TextKind::TooDeep)
    } else {
        None
    }
}

/// Whether this is the only one of the names.
fn is_only(names: &Names, name: &[u8]) -> bool
    ensures { result ≡ spec.is_only names.now name.now }
{
    names.len() == 1 && names.get(0) == name
}

/// The fault of the name that a cell's assign drives: it has to be the only output.
fn output_kind(ports: &Ports, name: &[u8]) -> Option<TextKind>
    ensures { result
        ≡ when (not (spec.is_only (ports_now ports.now).outputs name.now)) Undeclared }
{
    if is_only(&ports.outputs, name) {
        return None;
    }
    Some(TextKind::Undeclared)
}

/// A module with one output and its assign, behind other cells.
#[tactic(auto, unfolding(crate::specs::Modules::cell_at))]
fn read_cell<'a>(
    alloc: Global,
    source: &mut Source<'a>,
    cells: &[Cell<'a>],
) -> Result<Cell<'a>, ReadFault>
    ensures { Reads (λ c. (cell_now c, source.new)) result
        (spec.cell_at (map cell_now cells.now) source.old) }
{
    let head = read_head(source)?;
    if_good(head.line, cell_kind(cells, head.name, source.size()))?;
    let ports = read_ports(alloc, source, Rule::OfCell)?;
    read_word(source, b"assign")?;
    let assign = read_assign(alloc, source, Allowed::Ports(&ports))?;
    if let Some(kind) = output_kind(&ports, assign.name) {
        return Err(fault_at(assign.line, kind));
    }
    read_word(source, b"endmodule")?;
    Ok(Cell {
        name: head.name,
        ports,
        output: assign.name,
        steps: assign.steps,
    })
}

/// So many cells, one after another.
pub(crate) fn read_cells<'a>(
    alloc: Global,
    source: &mut Source<'a>,
    count: usize,
) -> Result<Vec<Cell<'a>>, ReadFault>
    ensures { Reads (λ v. (map cell_now v.items, source.new)) result
        (spec.cells_at count [] source.old) }
{
    let mut cells = Vec::new(alloc);
    for _ in 0..count {
        let cell = read_cell(alloc, source, cells.as_slice())?;
        cells.push(cell)?;
    }
    Ok(cells)
}

/// The first cell of the name.
pub(crate) fn cell_named<'c, 'a>(
    cells: &'c [Cell<'a>],
    line: u64,
    name: &[u8],
) -> Result<&'c Cell<'a>, ReadFault>
    ensures { Reads (λ c. cell_now c.now) result
        (spec.cell_named line (map cell_now cells.now) name.now) }
{
    for cell in cells {
        if cell.name == name {
            return Ok(cell);
        }
    }
    Err(fault_at(line, TextKind::Undeclared))
}
