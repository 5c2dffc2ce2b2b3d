//! The netlist of equations beside a graph.

ghost use Rattle.std.specs.Prelude.{◌≡◌, ◌≢◌, ◌∷◌, [], ◌≤◌, None, AllPairs, IfErr, IfOk, codes};
ghost use Rattle.std.specs.Prelude.{flat_map, length, map};
ghost use Rattle.si_base.specs.Graph.{names_in};
ghost use Rattle.si_base.specs.Limits.{max_signals};
ghost use Rattle.si_equations.specs.Whole.{AreWhole};
ghost use Rattle.si_equations_reader.specs.Read.{equations_now};
ghost use Rattle.si_netlist.specs.Loops.Parts.{gate_seen};
ghost use Rattle.si_from_equations.specs.Beside as spec;
ghost use Rattle.si_from_equations.specs.Given.{AreGiven};
ghost use Rattle.si_from_equations.specs.Sums.{sum_of};
ghost use Rattle.si_from_equations.specs.Unsummed.{Tells};

use crate::signals::names_of;
use crate::sums::sum_of;
use crate::unsummed::Unsummed;
use si_base::graph::Signal;
use si_base::ids::NoMemory;
use si_base::names::Names;
use si_base::text::Name;
use si_cube::sum::Sum;
use si_equations_reader::equations::Equations;
use si_graph::coded::Coded;
use si_netlist::gate::{Gate, Insert};
use si_netlist::name_list::NameList;
use si_netlist::netlist::Netlist;
use std::alloc::Global;

/// The netlist of the equations beside the graph: of all signals of both, with the sum of each
/// equation as a gate. Its hidden signals start with 0, and where they rise and fall isn't known.
///
/// # Errors
///
/// `Products` exactly where the expression of some signal multiplies out to too many products, with
/// the first in signal order. `NoMemory` only where memory runs out.
pub fn netlist_beside(
    alloc: Global,
    model: Name,
    graph: &Coded,
    signals: Vec<Signal>,
    equations: &Equations<'_>,
) -> Result<Netlist, Unsummed>
    requires given { AreGiven model graph.now.graph.signals }
    requires whole { AreWhole (equations_now equations.now) }
    requires lists { spec.lists_place graph.now.graph.signals (equations_now equations.now)
        ≡ None }
    requires signals { signals.items
        ≡ spec.all_signals graph.now.graph.signals (equations_now equations.now) }
    ensures netlist { IfOk result
        (λ n. n ≡ spec.netlist_beside model graph.now (equations_now equations.now)) }
    ensures summed { IfOk result
        (λ n. spec.unsummed signals.items (equations_now equations.now) ≡ None) }
    ensures missing { IfErr result
        (Tells (spec.unsummed signals.items (equations_now equations.now))) }
{
    let start = graph.code(graph.graph().start());
    let gates = gates_of(alloc, signals.as_slice(), equations)?;
    let inserts = unknown_inserts(alloc, signals.as_slice())?;
    Ok(Netlist::make(model, signals, start, inserts, gates))
}

/// The gates of the signals that aren't inputs, in signal order.
fn gates_of(
    alloc: Global,
    signals: &[Signal],
    equations: &Equations<'_>,
) -> Result<Vec<Gate>, Unsummed>
    requires distinct { AllPairs (λ x y. x.name ≢ y.name) signals.now }
    requires few { length signals.now ≤ max_signals }
    ensures gates { IfOk result (λ gates. map gate_seen gates.items
        ≡ map (spec.gate_for (names_in signals.now) (equations_now equations.now))
        (spec.gated signals.now)) }
    ensures summed { IfOk result
        (λ gates. spec.unsummed signals.now (equations_now equations.now) ≡ None) }
    ensures missing { IfErr result
        (Tells (spec.unsummed signals.now (equations_now equations.now))) }
{
    let names = names_of(alloc, signals)?;
    let mut gates = Vec::new(alloc);
    for signal in signals {
        if !signal.kind.is_driven() {
            continue;
        }
        let gate = gate_of(alloc, &names, equations, signal)?;
        gates.push(gate)?;
    }
    Ok(gates)
}

/// The gate of a signal, over the signals with these names.
fn gate_of(
    alloc: Global,
    names: &Names,
    equations: &Equations<'_>,
    signal: &Signal,
) -> Result<Gate, Unsummed>
    requires { length names.now ≤ max_signals }
    ensures gate { IfOk result (λ gate.
        gate_seen gate ≡ spec.gate_for names.now (equations_now equations.now) signal.now) }
    ensures summed { IfOk result (λ gate.
        spec.without_sum names.now (equations_now equations.now) signal.now ≡ None) }
    ensures missing { IfErr result
        (Tells (spec.without_sum names.now (equations_now equations.now) signal.now)) }
{
    match sum_for(alloc, names, equations, signal.name.bytes())? {
        Some(sum) => Ok(Gate::Sum(sum)),
        None => Err(Unsummed::Products {
            signal: Name::copy_of(alloc, signal.name.bytes())?,
        }),
    }
}

/// The sum of the equation of this name, over the signals with these names: `None` where multiplying
/// out comes to too much, and the sum that is 0 where there is no equation.
fn sum_for(
    alloc: Global,
    names: &Names,
    equations: &Equations<'_>,
    name: &[u8],
) -> Result<Option<Sum>, NoMemory>
    requires { length names.now ≤ max_signals }
    ensures { IfOk result (λ sum. sum ≡ sum_of names.now
        (spec.expression_of (equations_now equations.now).equations name.now)) }
{
    for k in 0..equations.len() {
        if name == equations.name(k) {
            return sum_of(alloc, names, equations.steps(k));
        }
    }
    sum_of(alloc, names, &[])
}

/// For each inserted signal an insertion of which it isn't said where the signal rises and falls.
pub(crate) fn unknown_inserts(alloc: Global, signals: &[Signal]) -> Result<Vec<Insert>, NoMemory>
    ensures { IfOk result (λ inserts. inserts.items ≡ flat_map spec.unknown_of signals.now) }
{
    let mut inserts = Vec::new(alloc);
    for signal in signals {
        if signal.kind.is_inserted() {
            inserts.push(unknown(alloc, signal.name.bytes())?)?;
        }
    }
    Ok(inserts)
}

/// The insertion of the signal of that name, without its states.
fn unknown(alloc: Global, name: &[u8]) -> Result<Insert, NoMemory>
    ensures { IfOk result (λ insert. insert ≡ spec.unknown name.now) }
{
    Ok(Insert {
        name: Name::copy_of(alloc, name)?,
        up: unknown_states(alloc)?,
        down: unknown_states(alloc)?,
    })
}

/// A word in place of states.
fn unknown_states(alloc: Global) -> Result<NameList, NoMemory>
    ensures { IfOk result (λ words. words ≡ codes "?" ∷ []) }
{
    let mut words = NameList::new(alloc);
    words.push(b"?")?;
    Ok(words)
}
