//! Pairs of texts, of a graph and of a netlist that is certified for it.

ghost use Rattle.std.specs.Prelude.{◌≡◌, map, IfOk, IfErr, Ok, length, vec_items};
ghost use Rattle.si_refusals.specs.Ending.{MayStop, ending_of};
ghost use Rattle.si_words.specs.Loops.Reads.{words_now};
ghost use Rattle.si_works.specs.Audited as stage;
ghost use Rattle.si_works.specs.Loops.Parts.{ending_of_several, part_now, parts_now};

use si_base::text::Text;
use si_graph::coded::Coded;
use si_netlist::netlist::Netlist;
use si_readings::checks::proper_of;
use si_readings::readings::{AuditReadings, audit_readings};
use si_refusals::refusals::Refusal;
use si_sg::read::Sg;
use si_stages::audited::audit_texts;
use std::alloc::Global;

/// The graph that a text gives, the same graph with its codes, and a netlist that is certified for
/// it.
#[derive(Drop)]
pub struct AuditedPart {
    pub given: Sg,
    pub part: Coded,
    pub netlist: Netlist,
}

/// The parts that texts give, two by two: a graph, and a netlist that is certified for it. A refusal
/// shows the names of the texts' files.
///
/// # Errors
///
/// Of the first pair that is refused: `BadText` with the first fault of its texts in their order,
/// else `Improper` with the first breach, else `ListsDiffer` with the first place, else
/// `Uncertified` exactly where the netlist isn't certified, with the first reason against it.
/// `NoMemory` only where memory runs out.
pub fn audited_parts<'w>(
    alloc: Global,
    files: &[&'w str],
    texts: &[Vec<u8>],
) -> Result<Vec<AuditedPart>, Refusal<'w>>
    requires { length texts.now ≡ length files.now }
    ensures ok { IfOk result (λ parts. stage.audited_parts (words_now files.now)
        (map vec_items texts.now) (Ok (parts_now parts.items))) }
    ensures err { IfErr result (λ r. MayStop
        (stage.audited_parts (words_now files.now) (map vec_items texts.now)) (ending_of r)) }
{
    let mut parts = Vec::new(alloc);
    for k in 0..files.len() / 2 {
        let graph_file = files[2 * k];
        let netlist_file = files[2 * k + 1];
        let graph = &texts[2 * k];
        let netlist = &texts[2 * k + 1];
        let part = audited_part(alloc, graph_file, graph, netlist_file, netlist)?;
        let Ok(()) = parts.push(part) else {
            return Err(Refusal::NoMemory);
        };
    }
    Ok(parts)
}

/// The part that two texts give.
fn audited_part<'w>(
    alloc: Global,
    graph_file: &'w str,
    graph: &[u8],
    netlist_file: &'w str,
    netlist: &[u8],
) -> Result<AuditedPart, Refusal<'w>>
    ensures ok { IfOk result (λ part. stage.audited_part graph_file.now graph.now
        netlist_file.now netlist.now (Ok (part_now part))) }
    ensures err { IfErr result (λ r. MayStop (stage.audited_part graph_file.now graph.now
        netlist_file.now netlist.now) (ending_of r)) }
{
    certified(alloc, graph_file, graph, netlist_file, netlist)?;
    let readings = audit_readings(alloc, graph_file, graph, netlist_file, netlist)?;
    let AuditReadings { given, netlist } = readings;
    let graph = given.graph.copy(alloc)?;
    let proper = proper_of(alloc, graph, &given.states)?;
    let part = proper.into_coded();
    Ok(AuditedPart {
        given,
        part,
        netlist,
    })
}

/// What `audit` tells of the netlist, where it is certified for the graph.
fn certified<'w>(
    alloc: Global,
    graph_file: &'w str,
    graph: &[u8],
    netlist_file: &'w str,
    netlist: &[u8],
) -> Result<Text, Refusal<'w>>
    ensures ok { IfOk result (λ output. stage.certified graph_file.now graph.now
        netlist_file.now netlist.now (Ok output)) }
    ensures err { IfErr result (λ r. MayStop (stage.certified graph_file.now graph.now
        netlist_file.now netlist.now) (ending_of r)) }
{
    match audit_texts(alloc, graph_file, graph, netlist_file, netlist) {
        Ok(output) => Ok(output),
        Err(refusal) => Err(of_several(netlist_file, refusal)),
    }
}

/// The refusal of an audit, where it is one of several.
fn of_several<'w>(netlist_file: &'w str, refusal: Refusal<'w>) -> Refusal<'w>
    ensures { ending_of result ≡ ending_of_several netlist_file.now (ending_of refusal.entry) }
{
    match refusal {
        Refusal::Rejected { reason } => Refusal::Uncertified {
            file: netlist_file,
            reason,
        },
        other => other,
    }
}
