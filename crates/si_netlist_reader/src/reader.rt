//! The reader of the netlist text.

ghost use Rattle.std.specs.Prelude.{◌≡◌, ◌≤◌, ◌++◌, ◌-◌, ◌∷◌, List, length, IfOk, OnOk};
ghost use Rattle.std.specs.Prelude.{take, drop};
ghost use Rattle.si_base.specs.GivenGraph.{signals_of};
ghost use Rattle.si_base.specs.NetlistText.{most_signals};
ghost use Rattle.si_base.specs.TextFaults.{ToldBy, Gives};
ghost use Rattle.si_words.specs.Lines.{Form};
ghost use Rattle.si_words.specs.Rows.{fault_of, TakesForm};
ghost use Rattle.si_netlist_reader.specs.Loops.Headers.{signals_by};
ghost use Rattle.si_netlist_reader.specs.NetlistFault as netlist;
ghost use Rattle.si_netlist_reader.specs.NetlistFault.{netlist_fault};
ghost use Rattle.si_netlist_reader.specs.NetlistValue.{netlist_of};

use crate::gate_rows::gate_rows;
use crate::header::{Header, read_header};
use crate::insertions::insert_rows;
use si_base::fault::{TextFault, TextKind};
use si_base::graph::{SigKind, Signal};
use si_base::ids::NoMemory;
use si_base::limits::{MAX_SIGNALS, MAX_SIGNALS_VERSION_1};
use si_base::names::Names;
use si_base::text::Name;
use si_netlist::netlist::Netlist;
use si_words::gate_lines::is_one;
use si_words::rows::Rows;
use std::alloc::Global;

/// How many signals the text may name. The line of the version is taken, where it stands first.
fn take_version(rows: &mut Rows<'_>) -> u32
    ensures limit { result ≡ most_signals (netlist.version_at rows.old) }
    ensures left { rows.new ≡ netlist.after_version (netlist.version_at rows.old) rows.old }
{
    if rows.take_line(b".version 2") {
        MAX_SIGNALS as u32
    } else {
        MAX_SIGNALS_VERSION_1 as u32
    }
}

/// A line that is one word.
fn word_row(alloc: Global, rows: &mut Rows<'_>, word: &[u8]) -> Result<(), TextFault>
    ensures ok { OnOk result (TakesForm (netlist.word_fault word.now) rows.old rows.new) }
    ensures err { (forms : List Form)
        → ToldBy result (fault_of (netlist.word_fault word.now ∷ forms) rows.old) }
{
    let line = rows.number();
    let words = rows.next_words(alloc)?;
    if !is_one(word, &words) {
        return Err(TextFault::At {
            line,
            kind: TextKind::BadLine,
        });
    }
    Ok(())
}

/// Adds signals of a kind: the names from place `from` up to place `to`.
fn add_signals(
    alloc: Global,
    signals: &mut Vec<Signal>,
    names: &Names,
    from: u32,
    to: u32,
    kind: SigKind,
) -> Result<(), NoMemory>
    requires order { from ≤ to }
    requires within { to ≤ length names.now }
    ensures { OnOk result (signals.new.items
        ≡ signals.old.items ++ signals_of kind (take (to - from) (drop from names.now))) }
{
    for k in from..to {
        let name = Name::copy_of(alloc, names.get(k))?;
        signals.push(Signal { name, kind })?;
    }
    Ok(())
}

/// The signals of the four lists.
fn signals_in(alloc: Global, names: &Names, header: &Header) -> Result<Vec<Signal>, NoMemory>
    requires outputs { header.now.inputs ≤ header.now.outputs }
    requires internals { header.now.outputs ≤ header.now.internals }
    requires within { header.now.internals ≤ length names.now }
    ensures { IfOk result (λ signals. signals.items
        ≡ signals_by names.now header.now.inputs header.now.outputs header.now.internals) }
{
    let mut signals = Vec::new(alloc);
    let (inputs, outputs, internals) = (header.inputs, header.outputs, header.internals);
    add_signals(alloc, &mut signals, names, 0, inputs, SigKind::Input)?;
    add_signals(alloc, &mut signals, names, inputs, outputs, SigKind::Output)?;
    add_signals(
        alloc,
        &mut signals,
        names,
        outputs,
        internals,
        SigKind::Internal,
    )?;
    add_signals(
        alloc,
        &mut signals,
        names,
        internals,
        names.len(),
        SigKind::Inserted,
    )?;
    Ok(signals)
}

/// The netlist that the text spells, or the first fault of the text. A text whose first line is
/// `.version 2` is read as one of version 2, any other as one of version 1, which may name 64
/// signals.
///
/// It fails with `NoMemory` only where memory runs out, and with `At` exactly where the text is no
/// netlist's.
pub fn read_netlist(alloc: Global, text: &[u8]) -> Result<Netlist, TextFault>
    ensures gives { Gives (λ n. n) result (netlist_fault text.now) (netlist_of text.now) }
{
    let mut rows = Rows::new(text);
    let limit = take_version(&mut rows);
    let mut names = Names::new(alloc)?;
    let header = read_header(alloc, &mut rows, limit, &mut names)?;
    let inserts = insert_rows(alloc, &mut rows, &names, header.internals)?;
    word_row(alloc, &mut rows, b".gates")?;
    let gates = gate_rows(alloc, &mut rows, &names, header.inputs)?;
    word_row(alloc, &mut rows, b".end")?;
    rows.finish()?;
    let signals = signals_in(alloc, &names, &header)?;
    Ok(Netlist::make(header.model, signals, header.start, inserts, gates))
}
