//! From the texts of graphs and netlists to whether the netlists work together.

ghost use Rattle.std.specs.Prelude.{◌≡◌, ◌≤◌, ◌*◌, [], map, length, vec_items, IfErr, IfOk, Ok, Some};
ghost use Rattle.std.specs.Prelude.{count_by};
ghost use Rattle.si_base.specs.Graph.{is_driven};
ghost use Rattle.si_base.specs.Limits.{max_signals};
ghost use Rattle.si_composing.specs.JoinedSignals.{max_parts};
ghost use Rattle.si_groups.specs.declared.misfit.Misfit.TheVariants as misfit;
ghost use Rattle.si_refusals.specs.Ending.{Answered, MayStop, ending_of};
ghost use Rattle.si_refusals.specs.Refusal as answer;
ghost use Rattle.si_refusals.specs.Refusal.{TextRefused};
ghost use Rattle.si_words.specs.Loops.Reads.{words_now};
ghost use Rattle.si_works.specs.Loops.Places.{ArePlaces, IsPlaced, ShowsMisfitSo, ShowsPlaced};
ghost use Rattle.si_works.specs.Loops.Parts.{parts_now};
ghost use Rattle.si_works.specs.Works as meaning;

use crate::audited::{AuditedPart, audited_parts};
use si_base::graph::Signal;
use si_base::ids::{NoMemory, StateId};
use si_base::text::{Name, Text};
use si_base::text_key::TextKey;
use si_composing::clash::Clash;
use si_graph::coded::Coded;
use si_groups::misfit::{Interference, Misfit};
use si_groups::together::{Together, work_together};
use si_netlist::name_list::NameList;
use si_netlist::netlist::Netlist;
use si_refusals::refusals::Refusal;
use si_refusals::uncomposed::NamedCause;
use si_reports::report::add_count;
use si_sg::write::{name_at, sign};
use si_words::writing::add_line;
use std::alloc::Global;

/// What is told of the netlists that work together: pairs of texts, of a graph and of a netlist for
/// it, each with its file. A refusal shows the names of the texts' files.
///
/// # Errors
///
/// Of the first pair that is refused: `BadText` with the first fault of its texts in their order,
/// else `Improper` with the first breach, else `ListsDiffer` with the first place, else
/// `Uncertified` exactly where the netlist isn't certified, with the first reason against it. Else
/// `Uncomposed` where signals can't be joined or a group of graphs is too large, and `Interfering`
/// with the first interference. `NoMemory` only where memory runs out.
pub fn works_texts<'w>(
    alloc: Global,
    files: &[&'w str],
    texts: &[Vec<u8>],
) -> Result<Text, Refusal<'w>>
    requires few { length files.now ≤ 2 * max_parts }
    requires texts { length texts.now ≡ length files.now }
    ensures ok { IfOk result (λ output.
        meaning.works (words_now files.now) (map vec_items texts.now) (Ok output)) }
    ensures err { IfErr result (λ r. MayStop
        (meaning.works (words_now files.now) (map vec_items texts.now)) (ending_of r)) }
{
    let key = key_of(alloc, texts)?;
    let parts = audited_parts(alloc, files, texts)?;
    let graphs = graphs_of(alloc, &parts)?;
    match work_together(alloc, key, &graphs) {
        Ok(found) => Ok(works_text(alloc, &parts, &found)?),
        Err(misfit) => Err(shown(alloc, files, &parts, misfit)),
    }
}

/// The key of all texts.
fn key_of(alloc: Global, texts: &[Vec<u8>]) -> Result<TextKey, NoMemory> {
    let mut all = Text::copy_of(alloc, b"")?;
    for text in texts {
        all.add(text)?;
    }
    Ok(TextKey::of(all.bytes()))
}

/// Copies of the graphs with their codes. It fails only where memory runs out.
fn graphs_of(alloc: Global, parts: &[AuditedPart]) -> Result<Vec<Coded>, NoMemory>
    ensures { IfOk result (λ graphs. graphs.items ≡ meaning.graphs (parts_now parts.now)) }
{
    let mut graphs = Vec::new(alloc);
    for part in parts {
        graphs.push(part.part.copy(alloc)?)?;
    }
    Ok(graphs)
}

/// How many gates the netlists have.
fn gate_count(parts: &[AuditedPart]) -> u64
    requires { length parts.now ≤ max_parts }
    ensures { result ≡ meaning.gate_count (parts_now parts.now) }
{
    let mut count = 0;
    for part in parts {
        count += few_gates(&part.netlist);
    }
    count
}

/// How many gates the netlist has: one for each signal that isn't an input.
fn few_gates(netlist: &Netlist) -> u64
    ensures count { result ≡ length netlist.now.gates }
    ensures few { result ≤ max_signals }
{
    driven_count(netlist.signals()) as u64
}

/// How many of the signals aren't inputs.
fn driven_count(signals: &[Signal]) -> usize
    ensures { result ≡ count_by (λ x. is_driven x.kind) signals.now }
{
    signals.iter().filter(|x| x.kind.is_driven()).count()
}

/// What is told of parts that work together.
fn works_text(alloc: Global, parts: &[AuditedPart], found: &Together) -> Result<Text, NoMemory>
    requires { length parts.now ≤ max_parts }
    ensures { IfOk result (λ text. text ≡ meaning.works_text (length parts.now) found.now.groups
        found.now.signals (meaning.gate_count (parts_now parts.now))) }
{
    let mut text = Text::copy_of(alloc, b"")?;
    add_line(&mut text, b"works", &[])?;
    add_count(alloc, &mut text, b"parts", parts.len() as u64)?;
    add_count(alloc, &mut text, b"groups", u64::from(found.groups))?;
    add_count(alloc, &mut text, b"signals", u64::from(found.signals))?;
    add_count(alloc, &mut text, b"gates", gate_count(parts))?;
    Ok(text)
}

/// The refusal for what stands against the parts, which are of these files.
fn shown<'w>(alloc: Global, files: &[&'w str], parts: &[AuditedPart], misfit: Misfit) -> Refusal<'w>
    requires files { 2 * length parts.now ≤ length files.now }
    requires placed { ShowsPlaced (parts_now parts.now) misfit }
    ensures { ShowsMisfitSo (words_now files.now) (parts_now parts.now) misfit (ending_of result) }
{
    match misfit {
        Misfit::NoMemory => Refusal::NoMemory,
        Misfit::Signal { clash, name } => Refusal::Uncomposed {
            cause: named_clash(clash, name),
        },
        Misfit::TooMany(count) => Refusal::Uncomposed {
            cause: NamedCause::Signals { count },
        },
        Misfit::States => Refusal::Uncomposed {
            cause: NamedCause::States,
        },
        Misfit::Interferes(x) => match interfering(alloc, files, parts, &x) {
            Ok(refusal) => refusal,
            Err(NoMemory) => Refusal::NoMemory,
        },
    }
}

/// What stands against joining the signal.
fn named_clash(clash: Clash, signal: Name) -> NamedCause
    ensures { meaning.misfit_name [] [] (misfit.Signal clash signal) ≡ Some (answer.Uncomposed result) }
{
    match clash {
        Clash::Driven => NamedCause::Driven { signal },
        Clash::Private => NamedCause::Private { signal },
        Clash::Starts => NamedCause::Starts { signal },
    }
}

/// The refusal for an interference.
fn interfering<'w>(
    alloc: Global,
    files: &[&'w str],
    parts: &[AuditedPart],
    x: &Interference,
) -> Result<Refusal<'w>, NoMemory>
    requires files { 2 * length parts.now ≤ length files.now }
    requires placed { IsPlaced (parts_now parts.now) x.now }
    ensures { IfOk result (λ refusal. ending_of refusal ≡ Answered (TextRefused
        (meaning.interfering (words_now files.now) (parts_now parts.now) x.now))) }
{
    let mut event = Text::copy_of(alloc, x.name.bytes())?;
    event.add(sign(x.up))?;
    let driver = files[2 * x.driver as usize];
    let refuser = files[2 * x.refuser as usize];
    let at = places_of(alloc, files, parts, x.group.numbers(), x.at.states())?;
    Ok(Refusal::Interfering {
        event,
        driver,
        refuser,
        at,
    })
}

/// For each part of the group its file and the name of its state.
fn places_of(
    alloc: Global,
    files: &[&str],
    parts: &[AuditedPart],
    group: &[u32],
    at: &[u32],
) -> Result<NameList, NoMemory>
    requires files { 2 * length parts.now ≤ length files.now }
    requires placed { ArePlaces (parts_now parts.now) group.now at.now }
    ensures { IfOk result (λ names. names
        ≡ meaning.places_of (words_now files.now) (parts_now parts.now) group.now at.now) }
{
    let mut names = NameList::new(alloc);
    for k in 0..group.len() {
        let i = group[k] as usize;
        let file = files[2 * i];
        let states = &parts[i].given.states;
        names.push(file.as_bytes())?;
        names.push(name_at(states, StateId(at[k])))?;
    }
    Ok(names)
}
