//! The values of signals and gates at all states of a graph.

ghost use Rattle.std.specs.Prelude.{◌≡◌, ℕ, ◌<◌, IfOk, length};
ghost use Rattle.std.specs.List.{list_all};
ghost use Rattle.si_base.specs.Bits.{bit};
ghost use Rattle.si_base.specs.Codes.{code};
ghost use Rattle.si_base.specs.Limits.{code_width};
ghost use Rattle.si_base.specs.Netlist.{literal_value, sum_value, value_of};
ghost use Rattle.si_base.specs.Sets.{flag};
ghost use Rattle.si_netlist.specs.Loops.Parts.{gate_seen};
ghost use Rattle.si_audit.specs.Loops.Columns.{AreColumns, AreColumnsOf, Computes, words_for};

use crate::column::Column;
use si_base::ids::{NoMemory, Sig, StateId};
use si_base::limits::CODE_WIDTH;
use si_cube::cube::Cube;
use si_cube::sum::Sum;
use si_graph::coded::Coded;
use si_netlist::gate::Gate;
use std::alloc::Global;

/// The columns of the values of all signals, and of 0s for those that a graph hasn't.
pub(crate) fn columns_of(alloc: Global, coded: &Coded) -> Result<Vec<Column>, NoMemory>
    ensures { IfOk result (λ columns. AreColumnsOf coded.now columns.items) }
{
    let mut columns: Vec<Column> = Vec::new(alloc);
    for z in 0..CODE_WIDTH {
        columns.push(column_of(alloc, coded, Sig(z as u8))?)?;
    }
    Ok(columns)
}

/// The column of a signal's values.
fn column_of(alloc: Global, coded: &Coded, z: Sig) -> Result<Column, NoMemory>
    requires { z < code_width }
    ensures size { IfOk result (λ column. length column ≡ words_for coded.now.graph.states) }
    ensures each { IfOk result (λ column. (s : ℕ) → s < coded.now.graph.states
        → flag column s ≡ bit (code coded.now s) z) }
{
    let states = coded.graph().states();
    let mut column = Column::new(alloc, states)?;
    for s in 0..states {
        let state = StateId(s);
        if coded.code(state).get(z) {
            column.raise(state);
        }
    }
    Ok(column)
}

/// The column of a sum's values, at so many states.
fn sum_column(alloc: Global, states: u32, columns: &[Column], sum: &Sum) -> Result<Column, NoMemory>
    requires { AreColumns (words_for states) columns.now }
    ensures { IfOk result
        (Computes (words_for states) columns.now (λ k. sum_value k sum.now)) }
{
    let mut values = Column::new(alloc, states)?;
    let mut product = Column::new(alloc, states)?;
    let cubes = sum.cubes();
    for j in 0..cubes.len() {
        put_product(columns, &cubes[j], &mut product);
        values.unite(&product);
    }
    Ok(values)
}

/// Makes `product` the column of the cube's values.
fn put_product(columns: &[Column], cube: &Cube, product: &mut Column)
    requires { AreColumns (length product.old) columns.now }
    ensures { Computes (length product.old) columns.now
        (λ k. list_all (literal_value k) cube.now) product.new }
{
    product.raise_all();
    for z in 0..CODE_WIDTH {
        let sig = Sig(z as u8);
        if cube.care.get(sig) {
            product.keep_where(&columns[z], cube.value.get(sig));
        }
    }
}

/// The column of the values of the gate of signal `z`, at so many states.
pub(crate) fn gate_column(
    alloc: Global,
    states: u32,
    columns: &[Column],
    gate: &Gate,
    z: Sig,
) -> Result<Column, NoMemory>
    requires signal { z < code_width }
    requires columns { AreColumns (words_for states) columns.now }
    ensures { IfOk result
        (Computes (words_for states) columns.now (value_of (gate_seen gate.now) z)) }
{
    match gate {
        Gate::Sum(sum) => sum_column(alloc, states, columns, sum),
        Gate::Gc { set, reset } => {
            let mut values = sum_column(alloc, states, columns, set)?;
            let resets = sum_column(alloc, states, columns, reset)?;
            let mut held = Column::new(alloc, states)?;
            held.raise_all();
            held.keep_where(&columns[z.0 as usize], true);
            held.keep_where(&resets, false);
            values.unite(&held);
            Ok(values)
        }
        Gate::Cell { sum, .. } => sum_column(alloc, states, columns, sum),
    }
}
