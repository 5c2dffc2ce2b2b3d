//! Writes the events of a netlist's signals as a Value Change Dump.

ghost use Rattle.std.specs.Prelude.{◌≡◌, ◌≤◌, ◌∷◌, ◌++◌, [], IfOk, OnOk, length, map, flat_map};
ghost use Rattle.std.specs.Prelude.{if◌then◌else◌};
ghost use Rattle.si_base.specs.Bytes.{digit_one, digit_zero};
ghost use Rattle.si_base.specs.Limits.{max_signals};
ghost use Rattle.si_base.specs.Words.{line, text_of};
ghost use Rattle.si_wave.specs.Dump.{change_line, moment_lines, time_line, wire_line};
ghost use Rattle.si_wave.specs.Wave as wave;
ghost use Rattle.si_wave.specs.Wave.{change_of, moment_of, moments_from, starts_from, wave_text};
ghost use Rattle.si_wave.specs.Wave.{wire_code, wires_from};

use si_base::graph::Signal;
use si_base::ids::{Code, Event, NoMemory, Sig};
use si_base::text::Text;
use si_netlist::netlist::Netlist;
use std::alloc::Global;

/// How many bytes from `!` to `~` there are.
const VISIBLE_BYTES: u8 = 94;

/// The events as a Value Change Dump: the signals of the netlist with their start values at time 0,
/// and event number k at time k. It fails only where memory runs out.
pub fn write_wave(alloc: Global, netlist: &Netlist, events: &[Event]) -> Result<Text, NoMemory>
    ensures { IfOk result (λ text. text ≡ wave_text netlist.now events.now) }
{
    let signals = netlist.signals();
    let model = netlist.model().bytes();
    let mut text = Text::copy_of(alloc, b"$timescale 1 ns $end\n$scope module ")?;
    text.add(escape(model))?;
    text.add(model)?;
    text.add(b" $end\n")?;
    add_wires(&mut text, signals)?;
    text.add(b"$upscope $end\n$enddefinitions $end\n#0\n$dumpvars\n")?;
    add_starts(&mut text, signals, netlist.start())?;
    text.add(b"$end\n")?;
    add_moments(alloc, &mut text, events)?;
    Ok(text)
}

/// What stands before the name of a model: a `\` where the name begins like a word of the format.
fn escape(name: &[u8]) -> &'static [u8]
    ensures { result.now ≡ wave.escape name.now }
{
    match name {
        [] => b"",
        [first, ..] => {
            if *first == b'$' || *first == b'\\' {
                b"\\"
            } else {
                b""
            }
        }
    }
}

/// Adds the declarations of the signals, in signal order.
fn add_wires(text: &mut Text, signals: &[Signal]) -> Result<(), NoMemory>
    requires { length signals.now ≤ max_signals }
    ensures { OnOk result
        (text.new ≡ text.old ++ text_of (map wire_line (wires_from 0 signals.now))) }
{
    for i in 0..signals.len() {
        add_wire(text, Sig(i as u8), signals[i].name.bytes())?;
    }
    Ok(())
}

/// Adds the declaration of a signal with this name.
fn add_wire(text: &mut Text, sig: Sig, name: &[u8]) -> Result<(), NoMemory>
    ensures { OnOk result (text.new ≡ text.old
        ++ line (wire_line (record { code = wire_code sig; name = name.now }))) }
{
    text.add(b"$var wire 1 ")?;
    add_code(text, sig)?;
    text.add(b" ")?;
    text.add(name)?;
    text.add(b" $end\n")
}

/// Adds the code by which changes name the signal.
fn add_code(text: &mut Text, sig: Sig) -> Result<(), NoMemory>
    ensures { OnOk result (text.new ≡ text.old ++ wire_code sig) }
{
    if sig.0 < VISIBLE_BYTES {
        text.add(&[b'!' + sig.0])
    } else {
        text.add(&[b'!', b'!' + (sig.0 - VISIBLE_BYTES)])
    }
}

/// Adds the values of the signals, in signal order.
fn add_starts(text: &mut Text, signals: &[Signal], values: Code) -> Result<(), NoMemory>
    requires { length signals.now ≤ max_signals }
    ensures { OnOk result (text.new
        ≡ text.old ++ text_of (map change_line (starts_from 0 signals.now values))) }
{
    for i in 0..signals.len() {
        let sig = Sig(i as u8);
        add_change(text, sig, values.get(sig))?;
    }
    Ok(())
}

/// Adds the line that gives the signal a value.
fn add_change(text: &mut Text, sig: Sig, value: bool) -> Result<(), NoMemory>
    ensures { OnOk result (text.new ≡ text.old ++ line (change_line (change_of sig value))) }
{
    text.add(digit(value))?;
    add_code(text, sig)?;
    text.add(b"\n")
}

/// The digit of a value.
fn digit(value: bool) -> &'static [u8]
    ensures { result.now ≡ (if value then digit_one else digit_zero) ∷ [] }
{
    if value { b"1" } else { b"0" }
}

/// Adds the events, one each at time 1 and those after it, and the time behind the last.
fn add_moments(alloc: Global, text: &mut Text, events: &[Event]) -> Result<(), NoMemory>
    ensures { OnOk result (text.new
        ≡ text.old ++ text_of (flat_map moment_lines (moments_from 1 events.now))) }
{
    for (k, event) in events.iter().enumerate() {
        add_moment(alloc, text, k as u64 + 1, *event)?;
    }
    add_time(alloc, text, events.len() as u64 + 1)
}

/// Adds the event, at this time.
fn add_moment(alloc: Global, text: &mut Text, time: u64, event: Event) -> Result<(), NoMemory>
    ensures { OnOk result (text.new ≡ text.old ++ text_of (moment_lines (moment_of time event))) }
{
    add_time(alloc, text, time)?;
    add_change(text, event.sig, event.up)
}

/// Adds the line of a time.
fn add_time(alloc: Global, text: &mut Text, time: u64) -> Result<(), NoMemory>
    ensures { OnOk result (text.new ≡ text.old ++ line (time_line time)) }
{
    let Ok(time) = time.to_string(alloc) else {
        return Err(NoMemory);
    };
    text.add(b"#")?;
    text.add(time.as_bytes())?;
    text.add(b"\n")
}
