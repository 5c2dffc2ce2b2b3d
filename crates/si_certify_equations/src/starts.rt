//! The start values of hidden signals.

ghost use Rattle.std.specs.Prelude.{◌≡◌, ◌+◌, ◌<◌, ◌≤◌, ℕ, IfErr, IfOk, MatchOption, length};
ghost use Rattle.si_base.specs.Codes.{code};
ghost use Rattle.si_base.specs.System.{IsFor};
ghost use Rattle.si_certify.specs.Certify.{IsSpelled, IsUnfound};
ghost use Rattle.si_certify_equations.specs.Limits.{max_hidden};
ghost use Rattle.si_certify_equations.specs.Starts as spec;
ghost use Rattle.si_certify_equations.specs.Starts.{FitsNone, IsStarted, started_on, starts};
ghost use Rattle.si_circuit.specs.Circuits.{AreStateNames};
ghost use Rattle.si_refusals.specs.Ending.{MayStop, ending_of};
ghost use Rattle.si_refusals.specs.Refusal.{Rejected};

use si_base::ids::{Code, NoMemory};
use si_base::names::Names;
use si_base::text::Text;
use si_base::text_key::TextKey;
use si_certify::certify::spelled;
use si_checks::proper::Proper;
use si_from_equations::started::started;
use si_netlist::netlist::Netlist;
use si_refusals::refusals::Refusal;
use si_refusals::rejection::NamedRejection;
use std::alloc::Global;

/// The text of the netlist with the first start values of its hidden signals with which a lineage
/// fits it, and with the lines of that lineage. In the netlist they start with 0.
///
/// # Errors
///
/// `Rejected` exactly where with no start values a lineage fits, with the first reason where all
/// start with 0. `NoMemory` only where memory runs out.
pub(crate) fn spelled_first(
    alloc: Global,
    key: TextKey,
    graph: &Proper,
    states: &Names,
    netlist: &Netlist,
) -> Result<Text, Refusal<'static>>
    requires names { AreStateNames graph.now.graph states.now }
    requires fits { IsFor graph.now netlist.now }
    requires start { netlist.now.start ≡ code graph.now graph.now.graph.start }
    requires more { length graph.now.graph.signals ≤ length netlist.now.signals }
    requires few { length netlist.now.signals ≤ length graph.now.graph.signals + max_hidden }
    ensures ok { IfOk result (IsStarted states.now graph.now netlist.now) }
    ensures err { IfErr result (λ r.
        MayStop (spec.spelled_first states.now graph.now netlist.now) (ending_of r)) }
{
    let reason = match spelled_at(alloc, key, graph, states, netlist, 0)? {
        Ok(text) => return Ok(text),
        Err(reason) => reason,
    };
    match spelled_later(alloc, key, graph, states, netlist)? {
        Some(text) => Ok(text),
        None => Err(Refusal::Rejected { reason }),
    }
}

/// The same text with the first other start values, where with those that are 0 no lineage fits. It
/// fails only where memory runs out.
fn spelled_later(
    alloc: Global,
    key: TextKey,
    graph: &Proper,
    states: &Names,
    netlist: &Netlist,
) -> Result<Option<Text>, NoMemory>
    requires names { AreStateNames graph.now.graph states.now }
    requires fits { IsFor graph.now netlist.now }
    requires start { netlist.now.start ≡ code graph.now graph.now.graph.start }
    requires more { length graph.now.graph.signals ≤ length netlist.now.signals }
    requires few { length netlist.now.signals ≤ length graph.now.graph.signals + max_hidden }
    requires none { FitsNone graph.now (started_on graph.now netlist.now 0) }
    ensures { IfOk result (λ found. MatchOption found
        ((values : ℕ) → values < starts graph.now netlist.now
        → FitsNone graph.now (started_on graph.now netlist.now values))
        (IsStarted states.now graph.now netlist.now)) }
{
    let hidden = netlist.signals().len() - graph.coded().graph().signals().len();
    for values in 1..1 << hidden {
        match spelled_at(alloc, key, graph, states, netlist, values)? {
            Ok(text) => return Ok(Some(text)),
            Err(_) => {}
        }
    }
    Ok(None)
}

/// The text of the netlist, where its hidden signals start with the bits of the number, with the
/// lines of the lineage that fits it, or the first reason why none does.
fn spelled_at(
    alloc: Global,
    key: TextKey,
    graph: &Proper,
    states: &Names,
    netlist: &Netlist,
    values: u32,
) -> Result<Result<Text, NamedRejection>, NoMemory>
    requires names { AreStateNames graph.now.graph states.now }
    requires fits { IsFor graph.now netlist.now }
    requires start { netlist.now.start ≡ code graph.now graph.now.graph.start }
    requires more { length graph.now.graph.signals ≤ length netlist.now.signals }
    requires values { values < starts graph.now netlist.now }
    ensures fits { IfOk result
        (λ r. IfOk r (IsSpelled states.now graph.now (started_on graph.now netlist.now values))) }
    ensures none { IfOk result (λ r. IfErr r (λ reason. IsUnfound states.now graph.now
        (started_on graph.now netlist.now values) (Rejected reason))) }
    ensures unfit { IfOk result
        (λ r. IfErr r (λ _. FitsNone graph.now (started_on graph.now netlist.now values))) }
{
    let given = graph.coded().graph().signals().len();
    let code = Code(u128::from(values));
    let netlist = started(alloc, netlist, given, code)?;
    match spelled(alloc, key, graph.copy(alloc)?, states, netlist) {
        Ok(text) => Ok(Ok(text)),
        Err(Refusal::Rejected { reason }) => Ok(Err(reason)),
        // no other refusal comes but for want of memory
        Err(_) => Err(NoMemory),
    }
}
