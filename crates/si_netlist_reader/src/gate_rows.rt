//! Gate lines, read.

ghost use Rattle.std.specs.Prelude.{◌≤◌, List, length, IfOk, map, drop, ◌++◌, ◌∷◌};
ghost use Rattle.si_base.specs.Limits.{max_signals};
ghost use Rattle.si_base.specs.TextFaults.{ToldBy};
ghost use Rattle.si_netlist_reader.specs.GateParts.{gate_fault};
ghost use Rattle.si_words.specs.Lines.{Form};
ghost use Rattle.si_words.specs.Loops.RowValues.{TakesValue, TakesAll};
ghost use Rattle.si_words.specs.Rows.{fault_of};
ghost use Rattle.si_netlist_reader.specs.Loops.Headers.{gate_in};
ghost use Rattle.si_netlist.specs.Loops.Parts.{gate_seen};

use crate::gate_reader::read_gate_line;
use si_base::fault::TextFault;
use si_base::names::Names;
use si_netlist::gate::Gate;
use si_words::rows::Rows;
use std::alloc::Global;

fn gate_row(
    alloc: Global,
    rows: &mut Rows<'_>,
    signals: &Names,
    name: &[u8],
) -> Result<Gate, TextFault>
    requires { length signals.now ≤ max_signals }
    ensures ok { IfOk result (λ gate. TakesValue (gate_fault signals.now name.now)
        (gate_in signals.now) rows.old rows.new (gate_seen gate)) }
    ensures err { (forms : List Form)
        → ToldBy result (fault_of (gate_fault signals.now name.now ∷ forms) rows.old) }
{
    let line = rows.number();
    let words = rows.next_words(alloc)?;
    match read_gate_line(alloc, signals, name, &words)? {
        Ok(gate) => Ok(gate),
        Err(kind) => Err(TextFault::At { line, kind }),
    }
}

/// The gates of the lines that are due: one for each signal from place `from` on.
///
/// Fails with the first fault of these lines, and where memory runs out.
pub fn gate_rows(
    alloc: Global,
    rows: &mut Rows<'_>,
    signals: &Names,
    from: u32,
) -> Result<Vec<Gate>, TextFault>
    requires room { from ≤ length signals.now }
    requires few { length signals.now ≤ max_signals }
    ensures ok { IfOk result
        (λ gates. TakesAll (map (gate_fault signals.now) (drop from signals.now))
        (gate_in signals.now) rows.old rows.new (map gate_seen gates.items)) }
    ensures err { (rest : List Form) → ToldBy result
        (fault_of (map (gate_fault signals.now) (drop from signals.now) ++ rest) rows.old) }
{
    let mut gates = Vec::new(alloc);
    for k in from..signals.len() {
        let gate = gate_row(alloc, rows, signals, signals.get(k))?;
        gates.push(gate)?;
    }
    Ok(gates)
}
