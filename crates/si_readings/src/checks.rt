//! Checks of a graph. A refusal shows names of its states and words of its events.

ghost use Rattle.std.specs.Prelude.{◌≡◌, IfOk, IfErr, length, Ok};
ghost use Rattle.si_checks.specs.Faults.{ShowsImproper};
ghost use Rattle.si_graph.specs.Faults.{ShowsUncoded};
ghost use Rattle.si_readings.specs.Checks as stage;
ghost use Rattle.si_readings.specs.Checks.{IsNamed, ShowsFirstBreach};
ghost use Rattle.si_refusals.specs.Ending.{MayStop, ending_of};

use si_base::ids::NoMemory;
use si_base::names::Names;
use si_checks::proper::{Improper, Proper};
use si_graph::coded::{CodeFault, Coded};
use si_graph::graph::Graph;
use si_netlist::netlist::Netlist;
use si_refusals::breach::{NamedBreach, event_word, name_of_signal, state_name};
use si_refusals::refusals::Refusal;
use si_system::lists::match_starts;
use si_system::system::{ListsDiffer, System};
use std::alloc::Global;

/// The graph with its codes, where these are the names of its states. `Improper` comes exactly
/// where it isn't proper, with its first breach.
pub fn proper_of(alloc: Global, graph: Graph, states: &Names) -> Result<Proper, Refusal<'static>>
    requires { IsNamed graph states.now }
    ensures ok { IfOk result (λ p. stage.proper graph states.now (Ok p)) }
    ensures err { IfErr result (λ r. MayStop (stage.proper graph states.now) (ending_of r)) }
{
    let coded = match Coded::make(alloc, graph) {
        Ok(coded) => coded,
        Err((graph, fault)) => {
            let breach = breach_without_codes(alloc, &graph, states, fault)?;
            return Err(Refusal::Improper { breach });
        }
    };
    match Proper::make(alloc, coded) {
        Ok(proper) => Ok(proper),
        Err((coded, fault)) => {
            let breach = breach_with_codes(alloc, &coded, states, fault)?;
            Err(Refusal::Improper { breach })
        }
    }
}

/// That the netlist is for the graph: its given signals and their start values are the graph's.
///
/// # Errors
///
/// `ListsDiffer` exactly where they aren't, with the first place at which they differ.
pub fn match_lists<'w>(file: &'w str, graph: &Coded, netlist: &Netlist) -> Result<(), Refusal<'w>>
    ensures ok { IfOk result
        (λ done. stage.match_lists file.now graph.now netlist.now (Ok done)) }
    ensures err { IfErr result
        (λ r. MayStop (stage.match_lists file.now graph.now netlist.now) (ending_of r)) }
{
    match System::start(graph, netlist) {
        Ok(_) => Ok(()),
        Err(ListsDiffer { place }) => Err(Refusal::ListsDiffer { file, place }),
    }
}

/// That the other graph, of that file, has the signals of the one, with the same values at its
/// start.
///
/// # Errors
///
/// `ListsDiffer` exactly where it hasn't, with the first place at which they differ.
pub fn match_graphs<'w>(file: &'w str, one: &Coded, other: &Coded) -> Result<(), Refusal<'w>>
    ensures ok { IfOk result
        (λ done. stage.match_graphs file.now one.now other.now (Ok done)) }
    ensures err { IfErr result
        (λ r. MayStop (stage.match_graphs file.now one.now other.now) (ending_of r)) }
{
    match match_starts(one, other) {
        Ok(()) => Ok(()),
        Err(ListsDiffer { place }) => Err(Refusal::ListsDiffer { file, place }),
    }
}

/// The first breach of a graph that has no codes.
fn breach_without_codes(
    alloc: Global,
    graph: &Graph,
    states: &Names,
    fault: CodeFault,
) -> Result<NamedBreach, NoMemory>
    requires named { IsNamed graph.now states.now }
    requires shown { ShowsUncoded graph.now fault }
    ensures { IfOk result (ShowsFirstBreach graph.now states.now) }
{
    let signals = graph.signals();
    match fault {
        CodeFault::NoMemory => Err(NoMemory),
        CodeFault::Nondeterministic { s, e, t, u } => Ok(NamedBreach::Nondeterministic {
            state: state_name(alloc, states, s)?,
            event: event_word(alloc, signals, e)?,
            one: state_name(alloc, states, t)?,
            other: state_name(alloc, states, u)?,
        }),
        CodeFault::Inconsistent { sig } => Ok(NamedBreach::Inconsistent {
            signal: name_of_signal(alloc, signals, sig)?,
        }),
    }
}

/// The first breach of a graph that has codes and isn't proper.
fn breach_with_codes(
    alloc: Global,
    coded: &Coded,
    states: &Names,
    fault: Improper,
) -> Result<NamedBreach, NoMemory>
    requires names { length states.now ≡ coded.now.graph.states }
    requires shown { ShowsImproper coded.now.graph fault }
    ensures { IfOk result (ShowsFirstBreach coded.now.graph states.now) }
{
    let signals = coded.graph().signals();
    match fault {
        Improper::NoMemory => Err(NoMemory),
        Improper::Noncommutative { s, a, c, w, w2 } => Ok(NamedBreach::Noncommutative {
            state: state_name(alloc, states, s)?,
            first: event_word(alloc, signals, a)?,
            second: event_word(alloc, signals, c)?,
            one: state_name(alloc, states, w)?,
            other: state_name(alloc, states, w2)?,
        }),
        Improper::Nonpersistent { s, lost, by } => Ok(NamedBreach::Nonpersistent {
            state: state_name(alloc, states, s)?,
            lost: event_word(alloc, signals, lost)?,
            by: event_word(alloc, signals, by)?,
        }),
    }
}
