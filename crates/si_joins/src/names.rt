//! Names of inserted signals in the whole.

ghost use Rattle.std.specs.Prelude.{◌≡◌, IfOk, IsTrue};
ghost use Rattle.si_base.specs.Words as words;
ghost use Rattle.si_base.specs.Words.{is_signal_name};
ghost use Rattle.si_joins.specs.Lifted as lifted;
ghost use Rattle.si_joins.specs.Lifted.{IsNamedAmong};

use crate::places::place_of;
use si_base::ids::NoMemory;
use si_base::text::Name;
use si_graph::graph::Graph;
use si_insert::fresh::fresh_name;
use std::alloc::Global;

/// The name that an inserted signal of a part has in the whole: its own, or, where a signal of the
/// graph has that, its letters with the least number that is free.
pub(crate) fn name_among(alloc: Global, graph: &Graph, own: &Name) -> Result<Name, NoMemory>
    ensures named { IfOk result (IsNamedAmong graph.now.signals own.now) }
    ensures signal_name { IfOk result
        (λ name. IsTrue (is_signal_name own.now) → IsTrue (is_signal_name name)) }
{
    let signals = graph.signals();
    if place_of(signals, own.bytes()) == signals.len() {
        Name::copy_of(alloc, own.bytes())
    } else {
        fresh_name(alloc, graph, letters(own.bytes()))
    }
}

/// The name without the digits at its end.
fn letters(name: &[u8]) -> &[u8]
    ensures { result.now ≡ lifted.letters name.now }
{
    let mut end = 0;
    for k in 0..name.len() {
        if !is_digit(name[k]) {
            end = k + 1;
        }
    }
    &name[..end]
}

/// Whether the byte is a digit.
fn is_digit(byte: u8) -> bool
    ensures { result ≡ words.is_digit byte }
{
    byte >= b'0' && byte <= b'9'
}
