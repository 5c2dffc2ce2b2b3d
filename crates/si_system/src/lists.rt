//! The first difference between the signals of a graph and the given signals of a netlist, or the
//! signals of another graph.

ghost use Rattle.std.specs.Prelude.{◌≡◌, ◌↔◌, ◌≤◌, AllPairs, IfSome, IsTrue, MatchOption};
ghost use Rattle.std.specs.Prelude.{MatchResult, filter, length, not};
ghost use Rattle.si_base.specs.Graph.{kind_place};
ghost use Rattle.si_base.specs.Limits.{max_signals};
ghost use Rattle.si_base.specs.System.{IsFor, is_inserted};
ghost use Rattle.si_system.specs.Lists.{AreSameAt, AreSameLists, IsFirstDifference, IsSameAt};
ghost use Rattle.si_system.specs.Lists.{ShowsUnlike, StartAlike};

use crate::system::ListsDiffer;
use si_base::graph::Signal;
use si_base::ids::{Code, Sig};
use si_graph::coded::Coded;
use si_netlist::netlist::Netlist;

/// The signals that aren't inserted: they stand in front.
fn given_signals(signals: &[Signal]) -> &[Signal]
    requires { AllPairs (λ x y. kind_place x.kind ≤ kind_place y.kind) signals.now }
    ensures { result.now ≡ filter (λ x. not (is_inserted x.kind)) signals.now }
{
    let count = signals.iter().filter(|x| !x.kind.is_inserted()).count();
    let (given, _) = signals.split_at(count);
    given
}

/// Whether the signals have the same name and kind.
fn is_same(one: &Signal, other: &Signal) -> bool
    ensures { IsTrue result ↔ (one.now ≡ other.now) }
{
    one.name.bytes() == other.name.bytes() && one.kind == other.kind
}

/// The first place, from 0, at which the graph's signals with their values at its start differ from
/// the given signals of the netlist with theirs; `None` exactly where they are the same.
pub(crate) fn first_difference(graph: &Coded, netlist: &Netlist) -> Option<usize>
    ensures difference { MatchOption result (IsFor graph.now netlist.now)
        (IsFirstDifference (IsSameAt graph.now netlist.now)) }
    ensures within { IfSome result (λ k. k ≤ max_signals) }
{
    let own = graph.graph();
    let values = graph.code(own.start());
    let given = given_signals(netlist.signals());
    first_unlike(own.signals(), values, given, netlist.start())
}

/// That two graphs have the same signals, with the same values at their starts.
///
/// # Errors
///
/// `ListsDiffer` exactly where they haven't.
pub fn match_starts(one: &Coded, other: &Coded) -> Result<(), ListsDiffer>
    ensures { MatchResult result (λ _. StartAlike one.now other.now)
        (λ e. ShowsUnlike one.now other.now e.place) }
{
    let (f, g) = (one.graph(), other.graph());
    let values = one.code(f.start());
    let start = other.code(g.start());
    match first_unlike(f.signals(), values, g.signals(), start) {
        None => Ok(()),
        Some(k) => Err(ListsDiffer {
            place: k as u32 + 1,
        }),
    }
}

/// The first place, from 0, at which two lists of signals with their start values differ; `None`
/// exactly where they are the same.
fn first_unlike(own: &[Signal], values: Code, others: &[Signal], start: Code) -> Option<usize>
    requires { length own.now ≤ max_signals }
    ensures difference { MatchOption result (AreSameLists own.now values others.now start)
        (IsFirstDifference (AreSameAt own.now values others.now start)) }
    ensures within { IfSome result (λ k. k ≤ max_signals) }
{
    let both = own.len().min(others.len());
    for k in 0..both {
        let sig = Sig(k as u8);
        if !is_same(&own[k], &others[k]) || values.get(sig) != start.get(sig) {
            return Some(k);
        }
    }
    if own.len() == others.len() {
        None
    } else {
        Some(both)
    }
}
