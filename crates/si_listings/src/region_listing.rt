//! The text of the regions of a graph.

ghost use Rattle.std.specs.Prelude.{◌≡◌, ◌+◌, ◌<◌, ◌++◌, IfOk, OnOk, All, length};
ghost use Rattle.si_base.specs.Words.{line, text_of};
ghost use Rattle.si_regions.specs.Regions.{AreRegions};
ghost use Rattle.si_listings.specs.RegionText.{set_line, region_lines, regions_text, IsRegionText};
ghost use Rattle.si_listings.specs.RegionText.{IsWithinNames};

use crate::numbers::repeats;
use crate::words::{add_event, add_states};
use si_base::graph::Signal;
use si_base::ids::{Event, NoMemory, StateId};
use si_base::names::Names;
use si_base::text::Text;
use si_graph::coded::Coded;
use si_regions::regions::{Region, regions};
use si_words::writing::add_word;
use std::alloc::Global;

/// The text of all regions of a graph with a name for each state. It fails only where memory runs
/// out.
pub fn list_regions(alloc: Global, graph: &Coded, states: &Names) -> Result<Text, NoMemory>
    requires { length states.now ≡ graph.now.graph.states }
    ensures { IfOk result (IsRegionText graph.now states.now) }
{
    let regions = regions(alloc, graph)?;
    let text = write_regions(alloc, graph, states, regions.as_slice())?;
    Ok(text)
}

/// The text of these regions, which are all of the graph. It fails only where memory runs out.
pub fn write_regions(
    alloc: Global,
    graph: &Coded,
    states: &Names,
    regions: &[Region],
) -> Result<Text, NoMemory>
    requires states { length states.now ≡ graph.now.graph.states }
    requires regions { AreRegions graph.now regions.now }
    ensures { IfOk result
        (λ text. text ≡ regions_text graph.now.graph.signals states.now regions.now) }
{
    let signals = graph.graph().signals();
    let mut text = Text::copy_of(alloc, b"")?;
    let mut number: usize = 0;
    for k in 0..regions.len() {
        number = if repeats(regions, k) { number + 1 } else { 1 };
        add_region(alloc, &mut text, signals, states, &regions[k], number)?;
    }
    Ok(text)
}

/// Adds the three lines of a region, which has this number among those of its event.
fn add_region(
    alloc: Global,
    text: &mut Text,
    signals: &[Signal],
    states: &Names,
    region: &Region,
    number: usize,
) -> Result<(), NoMemory>
    requires sig { region.now.event.sig < length signals.now }
    requires within { IsWithinNames states.now region.now }
    ensures { OnOk result (text.new
        ≡ text.old ++ text_of (region_lines signals.now states.now number region.now)) }
{
    let Ok(number) = number.to_string(alloc) else {
        return Err(NoMemory);
    };
    let word = number.as_bytes();
    let e = &region.event;
    add_set(text, b"er", signals, states, e, word, region.er.as_slice())?;
    add_set(text, b"sr", signals, states, e, word, region.sr.as_slice())?;
    add_set(text, b"qr", signals, states, e, word, region.qr.as_slice())
}

/// Adds the line of a set of states.
fn add_set(
    text: &mut Text,
    kind: &[u8],
    signals: &[Signal],
    states: &Names,
    e: &Event,
    number: &[u8],
    set: &[StateId],
) -> Result<(), NoMemory>
    requires sig { e.now.sig < length signals.now }
    requires within { All (λ s. s < length states.now) set.now }
    ensures { OnOk result (text.new ≡ text.old
        ++ line (set_line kind.now signals.now states.now e.now number.now set.now)) }
{
    text.add(kind)?;
    add_event(text, signals, e)?;
    add_word(text, number)?;
    add_states(text, states, set)?;
    text.add(b"\n")
}
