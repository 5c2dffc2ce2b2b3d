//! From the texts of a graph and a netlist to whether the netlist is certified for the graph.

ghost use Rattle.std.specs.Prelude.{◌≡◌, ℕ, ◌↔◌, List, IfOk, IfErr, Ok, length};
ghost use Rattle.si_audit.specs.Loops.FaultSignals.{AreAmong, TellsOf};
ghost use Rattle.si_audit.specs.declared.fault.AuditFault.TheVariants.{Refused};
ghost use Rattle.si_base.specs.System.{IsFor};
ghost use Rattle.si_readings.specs.Checks.{IsNamed};
ghost use Rattle.si_refusals.specs.Ending.{MayStop, ending_of};
ghost use Rattle.si_stages.specs.Audited as stage;
ghost use Rattle.si_stages.specs.Audited.{IsAudit, IsCertified, IsNamedSo, TellsRejection};
ghost use Rattle.si_stages.specs.Meaning as meaning;

use si_audit::audit::audit;
use si_audit::fault::AuditFault;
use si_base::graph::Signal;
use si_base::ids::NoMemory;
use si_base::names::Names;
use si_base::text::{Name, Text};
use si_checks::proper::Proper;
use si_circuit::circuit::Circuit;
use si_graph::graph::Graph;
use si_insert::accept::Rejected;
use si_netlist::netlist::Netlist;
use si_readings::checks::{match_lists, proper_of};
use si_readings::readings::{AuditReadings, audit_readings};
use si_refusals::breach::{event_word, name_of_signal};
use si_refusals::refusals::Refusal;
use si_refusals::rejection::NamedRejection;
use si_reports::report::add_count;
use si_sg::read::Sg;
use si_words::writing::add_line;
use std::alloc::Global;

/// What is told of the netlist that the one text spells, where it is certified for the graph of the
/// other. A refusal shows the names of the texts' files.
///
/// # Errors
///
/// `BadText` with the first fault of the texts in their order, else `Improper` with the first
/// breach, else `ListsDiffer` with the first place, else `Rejected` exactly where the netlist isn't
/// certified, with the first reason against it. `NoMemory` only where memory runs out.
pub fn audit_texts<'w>(
    alloc: Global,
    graph_file: &'w str,
    graph: &[u8],
    netlist_file: &'w str,
    netlist: &[u8],
) -> Result<Text, Refusal<'w>>
    ensures ok { IfOk result (λ output. meaning.audit graph_file.now graph.now
        netlist_file.now netlist.now (Ok output)) }
    ensures err { IfErr result (λ r. MayStop (meaning.audit graph_file.now graph.now
        netlist_file.now netlist.now) (ending_of r)) }
{
    let readings = audit_readings(alloc, graph_file, graph, netlist_file, netlist)?;
    let AuditReadings { given, netlist } = readings;
    let Sg { graph, states, .. } = given;
    audited_on(alloc, graph, &states, netlist_file, netlist)
}

/// What is told of the netlist, where it is certified for the graph, whose states have these names.
fn audited_on<'w>(
    alloc: Global,
    graph: Graph,
    states: &Names,
    netlist_file: &'w str,
    netlist: Netlist,
) -> Result<Text, Refusal<'w>>
    requires { IsNamed graph states.now }
    ensures ok { IfOk result (λ output.
        meaning.audited_on netlist_file.now graph states.now netlist (Ok output)) }
    ensures err { IfErr result (λ r.
        MayStop (meaning.audited_on netlist_file.now graph states.now netlist) (ending_of r)) }
{
    let proper = proper_of(alloc, graph, states)?;
    match_lists(netlist_file, proper.coded(), &netlist)?;
    audited_text(alloc, proper, states, netlist)
}

/// What is told of the netlist, where it is certified, or the first reason against it.
fn audited_text(
    alloc: Global,
    graph: Proper,
    states: &Names,
    netlist: Netlist,
) -> Result<Text, Refusal<'static>>
    requires names { length states.now ≡ graph.graph.states }
    requires fits { IsFor graph netlist }
    ensures ok { IfOk result (IsAudit states.now graph netlist) }
    ensures err { IfErr result (λ r.
        MayStop (stage.certification states.now graph netlist) (ending_of r)) }
{
    match audit(alloc, graph, states, netlist) {
        Ok(circuit) => Ok(audit_text(alloc, &circuit)?),
        Err((netlist, fault)) => Err(rejection(alloc, netlist.signals(), fault)),
    }
}

/// How many signals are inserted, states are in the last graph, and gates there are.
fn audit_text(alloc: Global, circuit: &Circuit) -> Result<Text, NoMemory>
    ensures { IfOk result (λ text.
        text ≡ stage.audit_text circuit.now.lineage circuit.now.netlist) }
{
    let netlist = circuit.netlist();
    let last = circuit.resolved().lineage().current().coded().graph();
    let mut text = Text::copy_of(alloc, b"")?;
    add_line(&mut text, b"audited", &[])?;
    add_count(
        alloc,
        &mut text,
        b"inserted",
        netlist.inserts().len() as u64,
    )?;
    add_count(alloc, &mut text, b"states", u64::from(last.states()))?;
    add_count(alloc, &mut text, b"gates", netlist.gates().len() as u64)?;
    Ok(text)
}

/// The refusal for a fault that is told of these signals.
pub(crate) fn rejection(alloc: Global, signals: &[Signal], fault: AuditFault) -> Refusal<'static>
    requires { TellsOf signals.now fault }
    ensures { TellsRejection signals.now fault (ending_of result) }
{
    match reason_of(alloc, signals, fault) {
        Ok(reason) => Refusal::Rejected { reason },
        Err(NoMemory) => Refusal::NoMemory,
    }
}

/// The fault of an audit by the names of these signals and the words of their events. It fails only
/// where memory runs out.
pub fn reason_of(
    alloc: Global,
    signals: &[Signal],
    fault: AuditFault,
) -> Result<NamedRejection, NoMemory>
    requires { TellsOf signals.now fault }
    ensures { IfOk result (IsNamedSo signals.now fault) }
{
    match fault {
        AuditFault::NoMemory => Err(NoMemory),
        AuditFault::States { k } => Ok(NamedRejection::States { k }),
        AuditFault::Classes { k } => Ok(NamedRejection::Classes { k }),
        AuditFault::Refused { k, state, why } => refused_insertion(alloc, signals, k, state, &why),
        AuditFault::Start { sig } => Ok(NamedRejection::Start {
            signal: name_of_signal(alloc, signals, sig)?,
        }),
        AuditFault::Gate { sig, state } => Ok(NamedRejection::Gate {
            signal: name_of_signal(alloc, signals, sig)?,
            state,
        }),
    }
}

/// The reason against the partition of insertion number `k`.
fn refused_insertion(
    alloc: Global,
    signals: &[Signal],
    k: u32,
    state: Name,
    why: &Rejected,
) -> Result<NamedRejection, NoMemory>
    requires { AreAmong signals.now why.now }
    ensures { IfOk result (IsNamedSo signals.now (Refused k state why.now)) }
{
    match why {
        Rejected::DelaysInput { e, .. } => Ok(NamedRejection::Delays {
            k,
            state,
            event: event_word(alloc, signals, *e)?,
        }),
        Rejected::BreaksPersistency { lost, by, .. } => Ok(NamedRejection::Breaks {
            k,
            state,
            lost: event_word(alloc, signals, *lost)?,
            by: event_word(alloc, signals, *by)?,
        }),
        Rejected::TooLarge { states } => Ok(NamedRejection::TooLarge { k, states: *states }),
        // This comes never: a netlist has no more signals than a graph may have.
        Rejected::NoCodeBit => Err(NoMemory),
    }
}

/// A law, whose function does nothing: the texts of an audit come to an output exactly where the
/// netlist is certified for the graph; so it implements the graph, whoever wrote it.
pub fn audits_certify()
    ensures { (graph graph_text netlist netlist_text output : List ℕ)
        → meaning.audit graph graph_text netlist netlist_text (Ok output)
        ↔ IsCertified graph_text netlist_text output }
{}
