//! Netlists whose signals behind those of a graph are hidden ones, and netlists with other lines of
//! insertions.

ghost use Rattle.std.specs.Prelude.{◌≡◌, ◌∷◌, [], IfOk, codes, flat_map, map};
ghost use Rattle.si_base.specs.WellFormed.{IsNetlist};
ghost use Rattle.si_certified.specs.Bare as lines;
ghost use Rattle.si_certify.specs.Hidden as spec;

use si_base::graph::{SigKind, Signal};
use si_base::ids::NoMemory;
use si_base::text::Name;
use si_netlist::gate::Insert;
use si_netlist::name_list::NameList;
use si_netlist::netlist::{Netlist, Parts};
use std::alloc::Global;

/// The netlist, where the signals behind so many given ones are hidden: inserted ones of which no
/// line says where they rise and fall. It fails only where memory runs out.
pub(crate) fn hiding(alloc: Global, given: usize, netlist: Netlist) -> Result<Netlist, NoMemory>
    ensures { IfOk result (λ n. n ≡ spec.hiding given netlist) }
{
    let Parts {
        model,
        signals,
        start,
        gates,
        ..
    } = netlist.into_parts();
    let signals = hide(alloc, given, signals)?;
    let inserts = unknown_inserts(alloc, signals.as_slice())?;
    Ok(Netlist::make(model, signals, start, inserts, gates))
}

/// The netlist with these lines of insertions in place of its own.
pub(crate) fn with_lines(netlist: Netlist, inserts: Vec<Insert>) -> Netlist
    requires { IsNetlist (lines.with_lines inserts.items netlist) }
    ensures { result ≡ lines.with_lines inserts.items netlist }
{
    let Parts {
        model,
        signals,
        start,
        gates,
        ..
    } = netlist.into_parts();
    Netlist::make(model, signals, start, inserts, gates)
}

/// The signals, where those behind so many are hidden ones.
fn hide(alloc: Global, given: usize, signals: Vec<Signal>) -> Result<Vec<Signal>, NoMemory>
    ensures { IfOk result (λ all. all.items ≡ spec.hide given signals.items) }
{
    let (_, rest) = signals.as_slice().split_at(given.min(signals.len()));
    let mut hidden = hidden_signals(alloc, rest)?;
    let mut all = signals;
    all.truncate(given);
    all.append(&mut hidden)?;
    Ok(all)
}

/// The signals as hidden ones.
fn hidden_signals(alloc: Global, signals: &[Signal]) -> Result<Vec<Signal>, NoMemory>
    ensures { IfOk result (λ hidden. hidden.items ≡ map spec.hidden_signal signals.now) }
{
    let mut hidden = Vec::new(alloc);
    for signal in signals {
        hidden.push(Signal {
            name: Name::copy_of(alloc, signal.name.bytes())?,
            kind: hidden_kind(signal.kind),
        })?;
    }
    Ok(hidden)
}

/// Inserted for an internal signal, and what the signal was for the others.
fn hidden_kind(kind: SigKind) -> SigKind
    ensures { result ≡ spec.hidden_kind kind }
{
    match kind {
        SigKind::Input => SigKind::Input,
        SigKind::Output => SigKind::Output,
        SigKind::Internal | SigKind::Inserted => SigKind::Inserted,
    }
}

/// For each inserted signal an insertion of which it isn't said where the signal rises and falls.
fn unknown_inserts(alloc: Global, signals: &[Signal]) -> Result<Vec<Insert>, NoMemory>
    ensures { IfOk result (λ inserts. inserts.items ≡ flat_map spec.unknown_of signals.now) }
{
    let mut inserts = Vec::new(alloc);
    for signal in signals {
        if signal.kind.is_inserted() {
            inserts.push(unknown(alloc, signal.name.bytes())?)?;
        }
    }
    Ok(inserts)
}

/// The insertion of the signal of that name, without its states.
fn unknown(alloc: Global, name: &[u8]) -> Result<Insert, NoMemory>
    ensures { IfOk result (λ insert. insert ≡ spec.unknown name.now) }
{
    Ok(Insert {
        name: Name::copy_of(alloc, name)?,
        up: unknown_states(alloc)?,
        down: unknown_states(alloc)?,
    })
}

/// A word in place of states.
fn unknown_states(alloc: Global) -> Result<NameList, NoMemory>
    ensures { IfOk result (λ words. words ≡ codes "?" ∷ []) }
{
    let mut words = NameList::new(alloc);
    words.push(b"?")?;
    Ok(words)
}
