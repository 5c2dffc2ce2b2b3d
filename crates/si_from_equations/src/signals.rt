//! The signals of a graph beside those of equations.

ghost use Rattle.std.specs.Prelude.{◌≡◌, ◌≢◌, ◌≤◌, not, length, position, AllPairs, IfOk};
ghost use Rattle.std.specs.List.{list_all};
ghost use Rattle.si_base.specs.Graph.{names_in};
ghost use Rattle.si_base.specs.Limits.{max_signals};
ghost use Rattle.si_words.specs.Names.{stands_in};
ghost use Rattle.si_equations.specs.Equations.{driven};
ghost use Rattle.si_equations_reader.specs.Read.{equations_now};
ghost use Rattle.si_from_equations.specs.Beside as spec;

use si_base::graph::{SigKind, Signal};
use si_base::ids::NoMemory;
use si_base::limits::MAX_SIGNALS;
use si_base::names::Names;
use si_base::text::Name;
use si_equations_reader::equations::Equations;
use si_graph::graph::Graph;
use si_words::lists::has;
use std::alloc::Global;

/// The signals of the graph, and behind them the others that have an equation, in the order of
/// their equations: as inserted ones. It fails only where memory runs out.
pub fn all_signals(
    alloc: Global,
    graph: &Graph,
    equations: &Equations<'_>,
) -> Result<Vec<Signal>, NoMemory>
    ensures { IfOk result (λ signals.
        signals.items ≡ spec.all_signals graph.now.signals (equations_now equations.now)) }
{
    let mut signals = graph.copied_signals(alloc)?;
    for k in 0..equations.len() {
        let name = equations.name(k);
        if has_name(graph.signals(), name) {
            continue;
        }
        signals.push(Signal {
            name: Name::copy_of(alloc, name)?,
            kind: SigKind::Inserted,
        })?;
    }
    Ok(signals)
}

/// The place, from 1, of the graph's first signal that the equations don't have: an input as one of
/// their inputs, and another with an equation. Where they have all, one place more if they have an
/// input that the graph doesn't have, and `None` if they haven't.
pub fn lists_place(graph: &Graph, equations: &Equations<'_>) -> Option<u32>
    requires { length graph.now.signals ≤ max_signals }
    ensures { result ≡ spec.lists_place graph.now.signals (equations_now equations.now) }
{
    let signals = graph.signals();
    match first_missing(signals, equations) {
        Some(k) => Some(k as u32 + 1),
        None if has_all_inputs(signals, equations) => None,
        None => Some(signals.len() as u32 + 1),
    }
}

/// The place, from 0, of the first signal that the equations don't have.
fn first_missing(signals: &[Signal], equations: &Equations<'_>) -> Option<usize>
    ensures { result ≡ position (λ x. not (spec.has_signal (equations_now equations.now) x))
        signals.now }
{
    signals
        .iter()
        .position(|signal| !has_signal(equations, signal))
}

/// Whether each input of the equations is one of the signals.
fn has_all_inputs(signals: &[Signal], equations: &Equations<'_>) -> bool
    ensures { result ≡ list_all (spec.has_name signals.now) (equations_now equations.now).inputs }
{
    let inputs = equations.inputs();
    for k in 0..inputs.len() {
        if !has_name(signals, inputs.get(k)) {
            return false;
        }
    }
    true
}

/// Whether one of the signals has the name.
fn has_name(signals: &[Signal], name: &[u8]) -> bool
    ensures { result ≡ spec.has_name signals.now name.now }
{
    for signal in signals {
        if name == signal.name.bytes() {
            return true;
        }
    }
    false
}

/// Whether the equations have the signal, an input as one of their inputs, and another with an
/// equation.
fn has_signal(equations: &Equations<'_>, signal: &Signal) -> bool
    ensures { result ≡ spec.has_signal (equations_now equations.now) signal.now }
{
    let name = signal.name.bytes();
    if signal.kind.is_driven() {
        has_equation(equations, name)
    } else {
        has(equations.inputs(), name)
    }
}

/// Whether the signal with this name has an equation.
fn has_equation(equations: &Equations<'_>, name: &[u8]) -> bool
    ensures { result ≡ stands_in (driven (equations_now equations.now)) name.now }
{
    for k in 0..equations.len() {
        if name == equations.name(k) {
            return true;
        }
    }
    false
}

/// The names of the signals, in their order.
pub(crate) fn names_of(alloc: Global, signals: &[Signal]) -> Result<Names, NoMemory>
    requires distinct { AllPairs (λ x y. x.name ≢ y.name) signals.now }
    requires few { length signals.now ≤ max_signals }
    ensures { IfOk result (λ names. names ≡ names_in signals.now) }
{
    let mut names = Names::new(alloc)?;
    for signal in signals {
        match names.add(signal.name.bytes(), MAX_SIGNALS as u32) {
            Ok(_) => {}
            // There is room for each signal, so that only memory can run out.
            Err(_) => return Err(NoMemory),
        }
    }
    Ok(names)
}
