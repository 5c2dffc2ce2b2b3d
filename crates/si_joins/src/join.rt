//! From the texts of graphs and netlists to the text of one netlist of all their gates.

ghost use Rattle.std.specs.Prelude.{◌≡◌, ◌≤◌, ◌*◌, map, length, vec_items, IfErr, IfOk, Ok};
ghost use Rattle.si_base.specs.NetlistText.{netlist_text};
ghost use Rattle.si_composing.specs.JoinedSignals.{max_parts};
ghost use Rattle.si_insert.specs.Lineage.{AllGiven, given_history};
ghost use Rattle.si_joins.specs.Join as stage;
ghost use Rattle.si_joins.specs.Loops.Parts.{AreAllShown, AreNetlists};
ghost use Rattle.si_readings.specs.Checks.{IsSound};
ghost use Rattle.si_refusals.specs.Ending.{MayStop, ending_of};
ghost use Rattle.si_sg.specs.CanonicalText.{IsWritable, sg_text};
ghost use Rattle.si_sg.specs.GivenGraph.{sg_now};
ghost use Rattle.si_systems.specs.Loops.Composed.{composed_now};
ghost use Rattle.si_systems.specs.Laws.{AreSound};
ghost use Rattle.si_systems.specs.Loops.Parts.{AreGiven, sgs_now};
ghost use Rattle.si_words.specs.Loops.Reads.{words_now};
ghost use Rattle.si_works.specs.Loops.Parts.{parts_now};
ghost use Rattle.si_works.specs.Works.{graphs};

use crate::lines::with_parts;
use crate::netlist::joined_netlist;
use si_base::ids::NoMemory;
use si_base::text::Text;
use si_base::text_key::TextKey;
use si_checks::proper::Proper;
use si_graph::coded::Coded;
use si_insert::lineage::Lineage;
use si_netlist::netlist::Netlist;
use si_netlist::write::write_netlist;
use si_readings::checks::proper_of;
use si_refusals::refusals::Refusal;
use si_sg::read::Sg;
use si_sg::write::write_sg;
use si_stages::audited::audit_texts;
use si_systems::compose::{ComposedSg, composed};
use si_works::audited::{AuditedPart, audited_parts};
use std::alloc::Global;

/// The text of one netlist of all gates of the netlists, for the graph that `compose` makes of the
/// graphs: pairs of texts, of a graph and of a netlist for it, each with its file. The audit of the
/// netlist for that graph says yes. A refusal shows the names of the texts' files.
///
/// # Errors
///
/// Of the first pair that is refused: `BadText` with the first fault of its texts in their order,
/// else `Improper` with the first breach, else `ListsDiffer` with the first place, else
/// `Uncertified` exactly where the netlist isn't certified, with the first reason against it. Else
/// `Uncomposed` with the first cause against composing the graphs. Else, of the first insertion
/// that isn't one of the composed graph, `Unused` where its signal doesn't rise and fall there,
/// `JoinedTooLarge` where the graph with it would be too large, and `Rejected` with another reason.
/// `NoMemory` only where memory runs out, or where there are no texts.
pub fn join_texts<'w>(
    alloc: Global,
    files: &[&'w str],
    texts: &[Vec<u8>],
) -> Result<Text, Refusal<'w>>
    requires few { length files.now ≤ 2 * max_parts }
    requires texts { length texts.now ≡ length files.now }
    ensures ok { IfOk result (λ output.
        stage.join (words_now files.now) (map vec_items texts.now) (Ok output)) }
    ensures err { IfErr result (λ r. MayStop
        (stage.join (words_now files.now) (map vec_items texts.now)) (ending_of r)) }
{
    let key = key_of(alloc, texts)?;
    let parts = audited_parts(alloc, files, texts)?;
    let apart = taken_apart(alloc, parts)?;
    let Apart {
        given,
        coded,
        netlists,
    } = apart;
    joined(
        alloc,
        key,
        given.as_slice(),
        coded.as_slice(),
        netlists.as_slice(),
    )
}

/// The key of all texts.
fn key_of(alloc: Global, texts: &[Vec<u8>]) -> Result<TextKey, NoMemory> {
    let mut all = Text::copy_of(alloc, b"")?;
    for text in texts {
        all.add(text)?;
    }
    Ok(TextKey::of(all.bytes()))
}

/// The graphs, their codes and the netlists of parts.
#[derive(Drop)]
struct Apart {
    given: Vec<Sg>,
    coded: Vec<Coded>,
    netlists: Vec<Netlist>,
}

/// The parts taken apart.
fn taken_apart(alloc: Global, parts: Vec<AuditedPart>) -> Result<Apart, NoMemory>
    ensures given { IfOk result
        (λ a. sgs_now a.given.items ≡ map (λ p. p.given) (parts_now parts.items)) }
    ensures coded { IfOk result (λ a. a.coded.items ≡ graphs (parts_now parts.items)) }
    ensures netlists { IfOk result
        (λ a. a.netlists.items ≡ map (λ p. p.netlist) (parts_now parts.items)) }
{
    let mut given = Vec::new(alloc);
    let mut coded = Vec::new(alloc);
    let mut netlists = Vec::new(alloc);
    for part in parts {
        given.push(part.given)?;
        coded.push(part.part)?;
        netlists.push(part.netlist)?;
    }
    Ok(Apart {
        given,
        coded,
        netlists,
    })
}

/// The text of the netlist of these netlists, for the graph of the graphs side by side.
fn joined(
    alloc: Global,
    key: TextKey,
    given: &[Sg],
    coded: &[Coded],
    netlists: &[Netlist],
) -> Result<Text, Refusal<'static>>
    requires few { length coded.now ≤ max_parts }
    requires given { AreGiven (sgs_now given.now) }
    requires sound { AreSound (sgs_now given.now) coded.now }
    requires many { length netlists.now ≡ length given.now }
    requires netlists { AreNetlists netlists.now }
    ensures ok { IfOk result (λ output.
        stage.joined (sgs_now given.now) coded.now netlists.now (Ok output)) }
    ensures err { IfErr result (λ r. MayStop
        (stage.joined (sgs_now given.now) coded.now netlists.now) (ending_of r)) }
{
    if given.is_empty() {
        // A netlist has a model, and without a part it would have none. The command has two.
        return Err(Refusal::NoMemory);
    }
    let whole = composed(alloc, key, given, coded)?;
    let graph = whole.sg.graph.copy(alloc)?;
    let proper = proper_of(alloc, graph, &whole.sg.states)?;
    joined_over(alloc, key, &whole, proper, given, netlists)
}

/// The text of the netlist of the parts, whose composed graph is proper.
fn joined_over(
    alloc: Global,
    key: TextKey,
    whole: &ComposedSg,
    proper: Proper,
    given: &[Sg],
    netlists: &[Netlist],
) -> Result<Text, Refusal<'static>>
    requires writable { IsWritable (sg_now whole.now.sg) }
    requires sound { IsSound whole.now.sg.graph proper }
    requires tuples { length whole.now.tuples.items ≡ whole.now.sg.graph.states }
    requires shown { AreAllShown (sgs_now given.now) whole.now.tuples.items }
    requires many { length netlists.now ≡ length given.now }
    requires few { length netlists.now ≤ max_parts }
    requires netlists { AreNetlists netlists.now }
    ensures ok { IfOk result (λ output. stage.joined_over (sgs_now given.now) netlists.now
        (composed_now whole.now) proper (Ok output)) }
    ensures err { IfErr result (λ r. MayStop (stage.joined_over (sgs_now given.now) netlists.now
        (composed_now whole.now) proper) (ending_of r)) }
{
    let begun = started(alloc, proper)?;
    let lineage = with_parts(alloc, key, whole, begun, given, netlists)?;
    let sg = &whole.sg;
    let netlist = joined_netlist(alloc, &sg.model, &sg.states, netlists, &lineage)?;
    passing(alloc, sg, &netlist)
}

/// The lineage into which nothing is inserted yet.
fn started(alloc: Global, graph: Proper) -> Result<Lineage, NoMemory>
    requires { AllGiven graph.graph.signals }
    ensures { IfOk result (λ l. l ≡ given_history graph) }
{
    match Lineage::start(alloc, graph) {
        Ok(lineage) => Ok(lineage),
        Err((_graph, NoMemory)) => Err(NoMemory),
    }
}

/// The text of the netlist, where it passes its audit for the graph.
fn passing(alloc: Global, graph: &Sg, netlist: &Netlist) -> Result<Text, Refusal<'static>>
    requires { length graph.now.states ≡ graph.now.graph.states }
    ensures ok { IfOk result (λ output. stage.passing (sg_text (sg_now graph.now))
        (netlist_text netlist.now) (Ok output)) }
    ensures err { IfErr result (λ r. MayStop (stage.passing (sg_text (sg_now graph.now))
        (netlist_text netlist.now)) (ending_of r)) }
{
    let graph_text = write_sg(alloc, graph)?;
    let text = write_netlist(alloc, netlist)?;
    let _told = audit_texts(alloc, "", graph_text.bytes(), "", text.bytes())?;
    Ok(text)
}
