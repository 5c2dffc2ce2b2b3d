//! Where the signals of parts stand in the whole.

ghost use Rattle.std.specs.Prelude.{◌≡◌, ◌≤◌, ◌^◌, IfOk, length, map, vec_items, slice_index};
ghost use Rattle.si_base.specs.Limits.{max_signals};
ghost use Rattle.si_composing.specs.JoinedSignals.{max_parts};
ghost use Rattle.si_joins.specs.Gates as gates;

use si_base::graph::Signal;
use si_base::ids::NoMemory;
use si_netlist::netlist::Netlist;
use std::alloc::Global;

/// The place of the first signal of the name: that behind all where none has it.
pub(crate) fn place_of(signals: &[Signal], name: &[u8]) -> usize
    ensures { result ≡ gates.place_of signals.now name.now }
{
    for k in 0..signals.len() {
        if signals[k].name.bytes() == name {
            return k;
        }
    }
    signals.len()
}

/// Where the signals of a part stand in the whole: a given one where its name does, and the
/// inserted ones from the place `first` on.
fn places(
    alloc: Global,
    whole: &[Signal],
    first: usize,
    own: &[Signal],
) -> Result<Vec<usize>, NoMemory>
    requires few { length own.now ≤ max_signals }
    requires low { first ≤ 2 ^ 32 }
    ensures { IfOk result (λ to. to.items ≡ gates.places whole.now first own.now) }
{
    let mut next = first;
    let mut to = Vec::new(alloc);
    for signal in own {
        if signal.kind.is_inserted() {
            to.push(next)?;
            next += 1;
        } else {
            to.push(place_of(whole, signal.name.bytes()))?;
        }
    }
    Ok(to)
}

/// The same for all parts: the insertions of each stand behind those of the parts before it.
pub(crate) fn all_places(
    alloc: Global,
    whole: &[Signal],
    first: usize,
    parts: &[Netlist],
) -> Result<Vec<Vec<usize>>, NoMemory>
    requires few { length parts.now ≤ max_parts }
    requires low { first ≤ max_signals }
    ensures { IfOk result
        (λ tos. map vec_items tos.items ≡ gates.all_places whole.now first parts.now) }
{
    let mut next = first;
    let mut tos = Vec::new(alloc);
    for part in parts {
        tos.push(places(alloc, whole, next, part.signals())?)?;
        next += part.inserts().len();
    }
    Ok(tos)
}

/// The place of signal z, and 0 where there is none.
pub(crate) fn place_in(to: &[usize], z: usize) -> usize
    ensures { result ≡ slice_index to.now z }
{
    if z < to.len() { to[z] } else { 0 }
}
