//! The reader of schedules.

ghost use Rattle.std.specs.Prelude.{◌≡◌, ◌≢◌, ◌<◌, ◌≤◌, ◌++◌, length, map, All, AllPairs, IfOk};
ghost use Rattle.std.specs.Prelude.{OnOk, false};
ghost use Rattle.si_base.specs.Faults.{when, ◌otherwise◌, first_in};
ghost use Rattle.si_base.specs.Graph.{names_in};
ghost use Rattle.si_base.specs.Limits.{max_signals};
ghost use Rattle.si_base.specs.Lines as text;
ghost use Rattle.si_base.specs.TextFaults.{Tells, Gives};
ghost use Rattle.si_base.specs.declared.fault.TextKind.TheVariants.{BadByte};
ghost use Rattle.si_words.specs.Events.{event_fault, event_of};
ghost use Rattle.si_system.specs.ScheduleText.{schedule_fault, schedule_of};

use si_base::fault::{LineFault, TextFault, TextKind, at_line};
use si_base::graph::Signal;
use si_base::ids::{Event, NoMemory};
use si_base::limits::MAX_SIGNALS;
use si_base::lines::{Lines, Words, has_bad_byte};
use si_base::names::Names;
use si_netlist::netlist::Netlist;
use si_words::event_words::read_event;
use std::alloc::Global;

/// The names of the signals, in their order.
fn names_of(alloc: Global, signals: &[Signal]) -> Result<Names, NoMemory>
    requires distinct { AllPairs (λ x y. x.name ≢ y.name) signals.now }
    requires few { length signals.now ≤ max_signals }
    ensures { IfOk result (λ names. names ≡ names_in signals.now) }
{
    let mut names = Names::new(alloc)?;
    for signal in signals {
        match names.add(signal.name.bytes(), MAX_SIGNALS as u32) {
            Ok(_) => {}
            // There is room for each signal, so that only memory can run out.
            Err(_) => return Err(NoMemory),
        }
    }
    Ok(names)
}

/// Appends the events of a line, up to its first fault.
fn read_line(names: &Names, line: &[u8], events: &mut Vec<Event>) -> Result<(), LineFault>
    requires { length names.now ≤ max_signals }
    ensures fault { Tells result (when (text.has_bad_byte line.now) BadByte
        otherwise first_in (event_fault names.now)
        (text.words_in false (text.before_comment line.now))) }
    ensures value { OnOk result (events.new.items ≡ events.old.items
        ++ map (event_of names.now) (text.words_in false (text.before_comment line.now))) }
{
    if has_bad_byte(line) {
        return Err(LineFault::Kind(TextKind::BadByte));
    }
    let mut words = Words::new(line, false);
    while let Some(word) = words.next_word() {
        events.push(read_event(names, word)?)?;
    }
    Ok(())
}

/// The events of all lines of the text, in order.
fn read_lines(alloc: Global, text: &[u8], names: &Names) -> Result<Vec<Event>, TextFault>
    requires { length names.now ≤ max_signals }
    ensures { Gives (λ v. v.items) result (schedule_fault names.now text.now)
        (schedule_of names.now text.now) }
{
    let mut events = Vec::new(alloc);
    let mut lines = Lines::new(text);
    while let Some(line) = lines.next_line() {
        read_line(names, line.bytes, &mut events).map_err(|fault| at_line(line.number, fault))?;
    }
    Ok(events)
}

/// The events of a schedule over the signals of the netlist: the words of all lines, in order. An
/// event word is a signal name, then `+` or `-`, then nothing or `/` with one to nine digits; `#`
/// begins a comment.
///
/// # Errors
///
/// `At` the line of the first fault: `BadByte` before the words of its line, else, at a word,
/// `Toggle` for `~` in place of the sign, `BadEvent` for any other word that isn't an event, and
/// `Undeclared` for a name that isn't a signal's.
/// `NoMemory` only where memory runs out.
pub fn read_schedule(alloc: Global, text: &[u8], netlist: &Netlist) -> Result<Vec<Event>, TextFault>
    ensures gives { Gives (λ v. v.items) result
        (schedule_fault (names_in netlist.now.signals) text.now)
        (schedule_of (names_in netlist.now.signals) text.now) }
    ensures within { IfOk result
        (λ events. All (λ e. e.sig < length netlist.now.signals) events.items) }
{
    let names = names_of(alloc, netlist.signals())?;
    read_lines(alloc, text, &names)
}
