//! The text of one gate line, for a new signal.

ghost use Rattle.std.specs.Prelude.{◌≡◌, ◌≢◌, ◌<◌, ◌≤◌, ◌∷◌, List, length, AllPairs, IfOk};
ghost use Rattle.si_base.specs.Graph.{names_in};
ghost use Rattle.si_base.specs.Limits.{max_signals};
ghost use Rattle.si_base.specs.TextFaults.{Gives, Tells, ToldBy};
ghost use Rattle.si_netlist_reader.specs.NetlistValue.{first_word};
ghost use Rattle.si_words.specs.Lines.{Form};
ghost use Rattle.si_words.specs.Loops.Reads.{words_now};
ghost use Rattle.si_words.specs.Loops.RowValues.{TakesValue};
ghost use Rattle.si_words.specs.Rows.{fault_of};
ghost use Rattle.si_by_hand.specs.GateText.{gate_of_line, gate_text_fault, line_fault};
ghost use Rattle.si_by_hand.specs.GateText.{new_gate};
ghost use Rattle.si_by_hand.specs.Loops.NewNames.{IsNewName};
ghost use Rattle.si_by_hand.specs.Loops.Handed.{new_gate_now};

use si_base::fault::{LineFault, TextFault, at_line};
use si_base::graph::Signal;
use si_base::ids::NoMemory;
use si_base::limits::MAX_SIGNALS;
use si_base::names::Names;
use si_base::text::Name;
use si_netlist::gate::Gate;
use si_netlist_reader::gate_reader::read_gate_line;
use si_words::lists::add_names;
use si_words::rows::Rows;
use std::alloc::Global;

/// A new signal, by its name and its gate, whose own number is that behind the signals of a graph.
#[derive(Drop)]
pub struct NewGate {
    pub name: Name,
    pub gate: Gate,
}

/// The new signal whose gate line is the text, beside these signals. The gate may read them and the
/// new signal itself.
///
/// # Errors
///
/// `At` the first line with a fault: as for any line of a netlist text, or `BadName`, `Repeated` or
/// `TooManySignals` where the first word can't be the name of one more signal, else that of the
/// gate; `BadLine` at a second line. `NoMemory` only where memory runs out.
pub fn read_gate_text(alloc: Global, signals: &[Signal], text: &[u8]) -> Result<NewGate, TextFault>
    requires distinct { AllPairs (λ x y. x.name ≢ y.name) signals.now }
    requires few { length signals.now ≤ max_signals }
    ensures gives { Gives new_gate_now result (gate_text_fault (names_in signals.now) text.now)
        (new_gate (names_in signals.now) text.now) }
    ensures new { IfOk result (λ made. IsNewName signals.now made.name) }
{
    let names = names_of(alloc, signals)?;
    let mut rows = Rows::new(text);
    let made = gate_row(alloc, &mut rows, names)?;
    rows.finish()?;
    Ok(made)
}

/// The names of the signals, in their order.
fn names_of(alloc: Global, signals: &[Signal]) -> Result<Names, NoMemory>
    requires distinct { AllPairs (λ x y. x.name ≢ y.name) signals.now }
    requires few { length signals.now ≤ max_signals }
    ensures { IfOk result (λ names. names ≡ names_in signals.now) }
{
    let mut names = Names::new(alloc)?;
    for signal in signals {
        match names.add(signal.name.bytes(), MAX_SIGNALS as u32) {
            Ok(_) => {}
            // There is room for each signal, so that only memory can run out.
            Err(_) => return Err(NoMemory),
        }
    }
    Ok(names)
}

/// The new signal of the next line, beside signals with these names.
fn gate_row(alloc: Global, rows: &mut Rows<'_>, names: Names) -> Result<NewGate, TextFault>
    requires { length names ≤ max_signals }
    ensures ok { IfOk result (λ made. TakesValue (line_fault names) (gate_of_line names)
        rows.old rows.new (new_gate_now made)) }
    ensures err { (forms : List Form)
        → ToldBy result (fault_of (line_fault names ∷ forms) rows.old) }
{
    let line = rows.number();
    let words = rows.next_words(alloc)?;
    match gate_of_words(alloc, names, &words) {
        Ok(made) => Ok(made),
        Err(fault) => Err(at_line(line, fault)),
    }
}

/// The new signal that the words of a line spell, beside signals with these names.
fn gate_of_words(alloc: Global, names: Names, words: &[&[u8]]) -> Result<NewGate, LineFault>
    requires { length names ≤ max_signals }
    ensures fault { Tells result (line_fault names (words_now words.now)) }
    ensures value { IfOk result
        (λ made. new_gate_now made ≡ gate_of_line names (words_now words.now)) }
{
    let mut names = names;
    let name = head_of(words);
    add_names(&mut names, MAX_SIGNALS as u32, &[name])?;
    match read_gate_line(alloc, &names, name, words)? {
        Ok(gate) => Ok(NewGate {
            name: Name::copy_of(alloc, name)?,
            gate,
        }),
        Err(kind) => Err(LineFault::Kind(kind)),
    }
}

/// The first word, or nothing where there is none.
fn head_of<'a>(words: &[&'a [u8]]) -> &'a [u8]
    ensures { result.now ≡ first_word (words_now words.now) }
{
    match words {
        [word, ..] => *word,
        _ => b"",
    }
}
