//! Regions of a coded graph.

ghost use Rattle.std.specs.Prelude.{◌≡◌, ℕ, ◌+◌, ◌*◌, ◌<◌, ◌↔◌, ◌⊎◌, IfOk, OnOk, All, length};
ghost use Rattle.std.specs.Prelude.{Contains, IsTrue};
ghost use Rattle.si_base.specs.Graph.{event_place};
ghost use Rattle.si_base.specs.Sets.{IsIn};
ghost use Rattle.si_regions.specs.Regions.{Enables, IsSetOf, IsEntered, IsQuiet, IsRegion};
ghost use Rattle.si_regions.specs.Regions.{AreRegions, AreComponents, IsRegionComponent};
ghost use Rattle.si_regions.specs.Regions.{component_of, opposite};
ghost use Rattle.si_regions.specs.Loops.Searching.{AreMarksOf, AreRests, AreRestsAfter};
ghost use Rattle.si_regions.specs.Loops.Searching.{ComponentsTo};
ghost use Rattle.si_regions.specs.Loops.Searching.{IsIdle};

use crate::search::reached;
use crate::state_list::StateList;
use si_base::ids::{Event, NoMemory, Sig, StateId};
use si_base::sets::StateSet;
use si_graph::closure::Along;
use si_graph::coded::Coded;
use si_graph::search::Search;
use std::alloc::Global;

/// A component of the states that enable an event (`er`), and the states that the event enters from
/// it (`sr`).
#[derive(Drop)]
pub struct Component {
    pub event: Event,
    pub er: StateList,
    pub sr: StateList,
}

/// A component of the states that enable an event (`er`), the states that the event enters from it
/// (`sr`), and the states in which its signal then rests (`qr`).
#[derive(Drop)]
pub struct Region {
    pub event: Event,
    pub er: StateList,
    pub sr: StateList,
    pub qr: StateList,
}

/// All regions in event order, then order of components. It fails only where memory runs out.
pub fn regions(alloc: Global, graph: &Coded) -> Result<Vec<Region>, NoMemory>
    ensures { IfOk result (λ regions. AreRegions graph.now regions.items) }
{
    let mut search = Search::new(alloc, graph.graph().states())?;
    let mut rests = Rests::nowhere(alloc)?;
    let mut out: Vec<Region> = Vec::new(alloc);
    for component in components(alloc, graph)? {
        rests.come_after(alloc, graph, &component.event)?;
        out.push(region_of(alloc, graph, component, &rests, &mut search)?)?;
    }
    Ok(out)
}

/// All regions without their quiescent parts, in the order of `regions`. It fails only where memory
/// runs out.
pub fn components(alloc: Global, graph: &Coded) -> Result<Vec<Component>, NoMemory>
    ensures { IfOk result (λ components. AreComponents graph.now components.items) }
{
    let g = graph.graph();
    let mut search = Search::new(alloc, g.states())?;
    let mut out: Vec<Component> = Vec::new(alloc);
    for z in 0..g.signals().len() {
        let sig = Sig(z as u8);
        let rise = Event { sig, up: true };
        let fall = Event { sig, up: false };
        add_components(alloc, graph, &rise, &mut search, &mut out)?;
        add_components(alloc, graph, &fall, &mut search, &mut out)?;
    }
    Ok(out)
}

/// Puts the components of an event last.
fn add_components(
    alloc: Global,
    coded: &Coded,
    e: &Event,
    search: &mut Search,
    out: &mut Vec<Component>,
) -> Result<(), NoMemory>
    requires idle { IsIdle coded.now.graph.states search.old }
    requires before { ComponentsTo coded.now (event_place e.now) 0 out.old.items }
    ensures idle { OnOk result (IsIdle coded.now.graph.states search.new) }
    ensures after { OnOk result (ComponentsTo coded.now (event_place e.now + 1) 0 out.new.items) }
{
    let g = coded.graph();
    let enabling = enabling(alloc, coded, e)?;
    let mut done = StateSet::new(alloc, g.states())?;
    for k in 0..g.states() {
        let s = StateId(k);
        if is_new(&enabling, &done, s) {
            let component = component_at(alloc, coded, e, &enabling, search, s)?;
            add_all(&mut done, component.er.as_slice());
            out.push(component)?;
        }
    }
    Ok(())
}

/// Whether the state is in the set and in no component that stands already.
fn is_new(enabling: &StateSet, done: &StateSet, s: StateId) -> bool
    requires enabling { s < length enabling.now }
    requires done { s < length done.now }
    ensures { IsTrue result ↔ (IsIn enabling.now s × (IsIn done.now s → ⊥)) }
{
    enabling.has(s) && !done.has(s)
}

/// The component of the event that has the state.
fn component_at(
    alloc: Global,
    coded: &Coded,
    e: &Event,
    enabling: &StateSet,
    search: &mut Search,
    s: StateId,
) -> Result<Component, NoMemory>
    requires idle { IsIdle coded.now.graph.states search.old }
    requires enabling { AreMarksOf coded.now.graph (Enables coded.now.graph e.now) enabling.now }
    requires here { IsIn enabling.now s }
    ensures idle { OnOk result (IsIdle coded.now.graph.states search.new) }
    ensures event { IfOk result (λ x. x.event ≡ e.now) }
    ensures component { IfOk result (IsRegionComponent coded.now) }
    ensures has { IfOk result (λ x. Contains x.er s) }
{
    let g = coded.graph();
    let er = reached(alloc, search, g, Along::Both, enabling, &[s])?;
    let sr = entered(alloc, coded, er.as_slice(), e)?;
    Ok(Component { event: *e, er, sr })
}

/// The region of the component.
fn region_of(
    alloc: Global,
    coded: &Coded,
    component: Component,
    rests: &Rests,
    search: &mut Search,
) -> Result<Region, NoMemory>
    requires idle { IsIdle coded.now.graph.states search.old }
    requires component { IsRegionComponent coded.now component }
    requires rests { AreRestsAfter coded.now component.event rests.now.states }
    ensures idle { OnOk result (IsIdle coded.now.graph.states search.new) }
    ensures region { IfOk result (IsRegion coded.now) }
    ensures same { IfOk result (λ r. component_of r ≡ component) }
{
    let g = coded.graph();
    let Component { event, er, sr } = component;
    let qr = reached(alloc, search, g, Along::Out, &rests.states, sr.as_slice())?;
    Ok(Region { event, er, sr, qr })
}

/// The states in which a signal rests after an event: they serve all components of the event.
#[derive(Drop)]
struct Rests {
    after: Option<Event>,
    states: StateSet,
}

impl Rests {
    ghost use Rattle.std.specs.Prelude.{None};

    /// No states, after no event.
    fn nowhere(alloc: Global) -> Result<Rests, NoMemory>
        ensures { IfOk result (λ rests. rests.after ≡ None) }
    {
        let states = StateSet::new(alloc, 0)?;
        Ok(Rests {
            after: None,
            states,
        })
    }

    /// Those after the event, unless they are at hand.
    fn come_after(&mut self, alloc: Global, coded: &Coded, e: &Event) -> Result<(), NoMemory>
        requires sig { e.now.sig < length coded.now.graph.signals }
        requires before { AreRests coded.now self.old }
        ensures at_hand { OnOk result (AreRestsAfter coded.now e.now self.new.states) }
        ensures after { OnOk result (AreRests coded.now self.new) }
    {
        if self.after == Some(*e) {
            return Ok(());
        }
        self.states = resting(alloc, coded, e)?;
        self.after = Some(*e);
        Ok(())
    }
}

/// The states that enable the event.
fn enabling(alloc: Global, coded: &Coded, e: &Event) -> Result<StateSet, NoMemory>
    ensures { IfOk result (AreMarksOf coded.now.graph (Enables coded.now.graph e.now)) }
{
    let g = coded.graph();
    let mut set = StateSet::new(alloc, g.states())?;
    for arc in g.arcs() {
        if arc.event == *e {
            set.add(arc.from);
        }
    }
    Ok(set)
}

/// The states in which the signal of the event has the new value and isn't about to switch back.
fn resting(alloc: Global, coded: &Coded, e: &Event) -> Result<StateSet, NoMemory>
    requires { e.now.sig < length coded.now.graph.signals }
    ensures { IfOk result (AreRestsAfter coded.now e.now) }
{
    let g = coded.graph();
    let leaving = enabling(
        alloc,
        coded,
        &Event {
            sig: e.sig,
            up: !e.up,
        },
    )?;
    let mut set = StateSet::new(alloc, g.states())?;
    for k in 0..g.states() {
        if rests_at(coded, &leaving, StateId(k), e) {
            set.add(StateId(k));
        }
    }
    Ok(set)
}

/// Whether the signal of the event has the new value and isn't about to switch back.
fn rests_at(coded: &Coded, leaving: &StateSet, s: StateId, e: &Event) -> bool
    requires state { s < coded.now.graph.states }
    requires sig { e.now.sig < length coded.now.graph.signals }
    requires leaving { AreMarksOf coded.now.graph
        (Enables coded.now.graph (opposite e.now)) leaving.now }
    ensures { IsTrue result ↔ IsQuiet coded.now e.now s }
{
    let _graph = coded.graph();
    coded.code(s).get(e.sig) == e.up && !leaving.has(s)
}

/// The states that the event enters from these, each of which enables it.
fn entered(alloc: Global, coded: &Coded, from: &[StateId], e: &Event) -> Result<StateList, NoMemory>
    ensures { IfOk result (IsSetOf (IsEntered coded.now.graph from.now e.now)) }
{
    let g = coded.graph();
    let mut targets: Vec<StateId> = Vec::new(alloc);
    for s in from {
        if let Some(t) = g.succ(*s, *e) {
            targets.push(t)?;
        }
    }
    Ok(StateList::of(targets))
}

/// Adds the states to the set.
fn add_all(set: &mut StateSet, states: &[StateId])
    requires { All (λ s. s < length set.old) states.now }
    ensures size { length set.new ≡ length set.old }
    ensures exactly { (t : ℕ) → IsIn set.new t ↔ (IsIn set.old t ⊎ Contains states.now t) }
{
    for s in states {
        set.add(*s);
    }
}
