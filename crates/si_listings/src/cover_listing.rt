//! The text of the covers and the monotonous cubes of a graph.

ghost use Rattle.std.specs.Prelude.{◌≡◌, ◌<◌, ◌++◌, [], ◌∷◌, IfOk, OnOk, List, length, codes};
ghost use Rattle.si_base.specs.Graph.{IsNonInput};
ghost use Rattle.si_base.specs.NetlistText.{cube_words};
ghost use Rattle.si_base.specs.Words.{line, text_of};
ghost use Rattle.si_checks.specs.Loops.Lent.{coded_of};
ghost use Rattle.si_listings.specs.CoverText.{RegionCube, IsRegionCube, Component, AreComponents};
ghost use Rattle.si_listings.specs.CoverText.{sum_line, sum_lines, region_cube_words, mono_line};
ghost use Rattle.si_listings.specs.CoverText.{mono_lines};
ghost use Rattle.si_listings.specs.CoverText.{monos_after, signal_lines, conflict_text};
ghost use Rattle.si_listings.specs.CoverText.{TellsCovers, IsCoverText};
ghost use Rattle.si_sg.specs.CanonicalText.{state_at};
ghost use Rattle.si_regions.specs.Regions.{IsRegion, AreRegions};
ghost use Rattle.si_words.specs.Loops.Writing.{spaced};
ghost use Rattle.si_cube.specs.Literals.{InSignalOrder};

use crate::numbers::repeats;
use crate::words::add_event;
use si_base::graph::{Signal, signal_name};
use si_base::ids::{NoMemory, Sig, StateId};
use si_base::names::Names;
use si_base::text::Text;
use si_checks::conflicts::first_conflict;
use si_checks::distinct::Distinct;
use si_checks::proper::Proper;
use si_cover::cover::{SetReset, next_sum, set_reset};
use si_cover::mono::mono;
use si_cube::cube::Cube;
use si_cube::sum::Sum;
use si_cube::write_sums::{add_cube, add_sum};
use si_regions::regions::{Region, regions};
use si_sg::write::name_at;
use si_words::writing::{add_line, add_word};
use std::alloc::Global;

/// The text of the covers and the monotonous cubes of a proper graph with a name for each state, or
/// of its first conflict. It fails only where memory runs out.
pub fn list_covers(alloc: Global, graph: &Proper, states: &Names) -> Result<Text, NoMemory>
    requires { length states.now ≡ graph.now.graph.states }
    ensures { IfOk result (IsCoverText graph.now states.now) }
{
    let found = first_conflict(alloc, graph.coded())?;
    match found {
        Some((p, q)) => write_conflict(alloc, states, p, q),
        None => write_covers(alloc, Distinct::known(graph), states),
    }
}

/// The text of the conflict of two states.
fn write_conflict(alloc: Global, states: &Names, p: StateId, q: StateId) -> Result<Text, NoMemory>
    requires p { p < length states.now }
    requires q { q < length states.now }
    ensures { IfOk result (λ text. text ≡ conflict_text states.now (p, q)) }
{
    let mut text = Text::copy_of(alloc, b"")?;
    add_line(
        &mut text,
        b"conflict",
        &[name_at(states, p), name_at(states, q)],
    )?;
    Ok(text)
}

/// The text of a graph without conflicts.
fn write_covers(alloc: Global, graph: Distinct<'_>, states: &Names) -> Result<Text, NoMemory>
    requires { length states.now ≡ (coded_of graph).graph.states }
    ensures { IfOk result (TellsCovers (coded_of graph.entry) states.now) }
{
    let coded = graph.proper().coded();
    let known = coded.graph();
    let regions = regions(alloc, coded)?;
    let mut text = Text::copy_of(alloc, b"")?;
    for i in 0..known.signals().len() {
        let z = Sig(i as u8);
        if !known.is_driven(z) {
            continue;
        }
        add_signal(alloc, &mut text, graph, states, regions.as_slice(), z)?;
    }
    Ok(text)
}

/// Adds the lines of a signal: its sums, and what is told of those of the regions that are its own.
fn add_signal(
    alloc: Global,
    text: &mut Text,
    graph: Distinct<'_>,
    states: &Names,
    regions: &[Region],
    z: Sig,
) -> Result<(), NoMemory>
    requires driven { IsNonInput (coded_of graph).graph.signals z }
    requires states { length states.now ≡ (coded_of graph).graph.states }
    requires regions { AreRegions (coded_of graph) regions.now }
    ensures { let c = coded_of graph.entry in OnOk result
        ((xs : List Component) → AreComponents c xs
        → text.new ≡ text.old ++ text_of (signal_lines c states.now xs z)) }
{
    add_sums(alloc, text, graph, z)?;
    add_monos(alloc, text, graph, states, regions, z)
}

/// Adds the lines of the sums of a signal.
fn add_sums(alloc: Global, text: &mut Text, graph: Distinct<'_>, z: Sig) -> Result<(), NoMemory>
    requires { IsNonInput (coded_of graph).graph.signals z }
    ensures { OnOk result (text.new ≡ text.old ++ text_of (sum_lines (coded_of graph.entry) z)) }
{
    let signals = graph.proper().coded().graph().signals();
    let next = next_sum(alloc, graph, z)?;
    let SetReset { set, reset } = set_reset(alloc, graph, z)?;
    add_sum_line(text, signals, b"next", z, &next)?;
    add_sum_line(text, signals, b"set", z, &set)?;
    add_sum_line(text, signals, b"reset", z, &reset)
}

/// Adds the line of a sum.
fn add_sum_line(
    text: &mut Text,
    signals: &[Signal],
    word: &[u8],
    z: Sig,
    sum: &Sum,
) -> Result<(), NoMemory>
    ensures { OnOk result
        (text.new ≡ text.old ++ line (sum_line signals.now word.now z sum.now)) }
{
    text.add(word)?;
    add_word(text, signal_name(signals, z))?;
    add_sum(text, signals, sum)?;
    text.add(b"\n")
}

/// Adds the lines of those regions that are of the signal.
fn add_monos(
    alloc: Global,
    text: &mut Text,
    graph: Distinct<'_>,
    states: &Names,
    regions: &[Region],
    z: Sig,
) -> Result<(), NoMemory>
    requires states { length states.now ≡ (coded_of graph).graph.states }
    requires regions { AreRegions (coded_of graph) regions.now }
    ensures { let c = coded_of graph.entry in OnOk result
        ((xs : List Component) → AreComponents c xs
        → text.new ≡ text.old ++ text_of (monos_after c.graph.signals states.now z [] xs)) }
{
    let mut number: usize = 0;
    for k in 0..regions.len() {
        number = if repeats(regions, k) { number + 1 } else { 1 };
        add_if_of(alloc, text, graph, states, &regions[k], number, z)?;
    }
    Ok(())
}

/// Adds the line of the region, which has this number among those of its event, if it is of the
/// signal.
fn add_if_of(
    alloc: Global,
    text: &mut Text,
    graph: Distinct<'_>,
    states: &Names,
    region: &Region,
    number: usize,
    z: Sig,
) -> Result<(), NoMemory>
    requires states { length states.now ≡ (coded_of graph).graph.states }
    requires region { IsRegion (coded_of graph) region.now }
    ensures { let c = coded_of graph.entry in OnOk result
        ((told : RegionCube) → IsRegionCube c region.now told → text.new ≡ text.old
        ++ text_of (mono_lines c.graph.signals states.now z number region.now told)) }
{
    if region.event.sig != z {
        return Ok(());
    }
    add_mono(alloc, text, graph, states, region, number)
}

/// Adds the line of a region, which has this number among those of its event.
fn add_mono(
    alloc: Global,
    text: &mut Text,
    graph: Distinct<'_>,
    states: &Names,
    region: &Region,
    number: usize,
) -> Result<(), NoMemory>
    requires states { length states.now ≡ (coded_of graph).graph.states }
    requires region { IsRegion (coded_of graph) region.now }
    ensures { let c = coded_of graph.entry in OnOk result
        ((told : RegionCube) → IsRegionCube c region.now told → text.new ≡ text.old
        ++ line (mono_line c.graph.signals states.now number region.now told)) }
{
    let signals = graph.proper().coded().graph().signals();
    let Ok(number) = number.to_string(alloc) else {
        return Err(NoMemory);
    };
    text.add(b"mono")?;
    add_event(text, signals, &region.event)?;
    add_word(text, number.as_bytes())?;
    add_region_cube(text, graph, states, region)?;
    text.add(b"\n")
}

/// Adds what is told of the region: its least monotonous cube, or the state that shows that it has
/// none.
fn add_region_cube(
    text: &mut Text,
    graph: Distinct<'_>,
    states: &Names,
    region: &Region,
) -> Result<(), NoMemory>
    requires states { length states.now ≡ (coded_of graph).graph.states }
    requires region { IsRegion (coded_of graph) region.now }
    ensures { let c = coded_of graph.entry in OnOk result
        ((told : RegionCube) → IsRegionCube c region.now told
        → text.new ≡ text.old ++ spaced (region_cube_words c.graph.signals states.now told)) }
{
    let signals = graph.proper().coded().graph().signals();
    match mono(graph, region) {
        Ok(cube) => add_least(text, signals, &cube),
        Err(none) => add_none(text, states, none.state),
    }
}

/// Adds the words of a cube, whose literals stand in signal order.
fn add_least(text: &mut Text, signals: &[Signal], cube: &Cube) -> Result<(), NoMemory>
    ensures in_order { InSignalOrder cube.now }
    ensures words { OnOk result
        (text.new ≡ text.old ++ spaced (cube_words signals.now cube.now)) }
{
    let _care = cube.care;
    add_cube(text, signals, cube)
}

/// Adds that there is no cube, as the state shows.
fn add_none(text: &mut Text, states: &Names, state: StateId) -> Result<(), NoMemory>
    requires { state < length states.now }
    ensures { OnOk result (text.new ≡ text.old
        ++ spaced (codes "none" ∷ state_at states.now state ∷ [])) }
{
    add_word(text, b"none")?;
    add_word(text, name_at(states, state))
}
