//! The states where the new signal switches to 1, for 128 functions at once.

ghost use Rattle.std.specs.Prelude.{◌≡◌, ◌≢◌, ℕ, ◌<◌, ◌↔◌, ◌⊎◌, true, false, IfOk, Contains};
ghost use Rattle.std.specs.Prelude.{length, slice_index_or};
ghost use Rattle.si_base.specs.declared.graph.Edge.{Edge};
ghost use Rattle.si_base.specs.Bits.{bit};
ghost use Rattle.si_base.specs.Codes.{IsDeterministic};
ghost use Rattle.si_base.specs.Graph.{IsGraph, Step};
ghost use Rattle.si_base.specs.Sets.{IsIn};
ghost use Rattle.si_closures.specs.Loops.WordSearch.{column, HasBit};
ghost use Rattle.si_divisor.specs.Targets.{IsLeast, target};
ghost use Rattle.si_divisor.specs.Switching.{Switches};
ghost use Rattle.si_divisor.specs.Loops.SwitchRules.{FollowsByRule, IsCrossed, IsLow};
ghost use Rattle.si_divisor.specs.Loops.ManySwitching.{AreSwitched, BelongsTo, ExitsBeside};
ghost use Rattle.si_divisor.specs.Loops.ManySwitching.{FollowsBack, FollowsOn, Grows, GrowsAll};
ghost use Rattle.si_divisor.specs.Loops.ManySwitching.{HasExit};
ghost use Rattle.si_divisor.specs.Loops.ManySwitching.{IsSized, IsTurn, LetsExit};

use si_base::graph::Edge;
use si_base::ids::{Event, NoMemory, StateId};
use si_base::sets::StateSet;
use si_closures::word_work::WordWork;
use si_closures::words::{everywhere, set_at};
use si_graph::graph::Graph;
use std::alloc::Global;

/// For each state the sets that have it, and the sets that are kept: they are whole.
#[derive(Drop)]
pub(crate) struct Switched {
    pub(crate) words: Vec<u128>,
    pub(crate) kept: u128,
}

/// Those of the sets that are high at the end of the arc, and low at its source.
fn crossing(highs: &[u128], given: u128, arc: &Edge) -> u128
    requires from { arc.now.from < length highs.now }
    requires to { arc.now.to < length highs.now }
    ensures { (k : ℕ) → (bit result k ≡ true) ↔ ((bit given k ≡ true)
        × IsIn (column k highs.now) arc.now.to × IsLow (column k highs.now) arc.now.from) }
{
    given & highs[arc.to.0 as usize] & !highs[arc.from.0 as usize]
}

/// Puts the high states that are entered from low ones into the given sets.
fn cross(graph: &Graph, highs: &[u128], given: u128, work: &mut WordWork)
    requires graph { IsGraph graph.now }
    requires highs { length highs.now ≡ graph.now.states }
    requires size { IsSized graph.now.states work.old }
    ensures { GrowsAll (λ k t. (bit given k ≡ true) × IsCrossed graph.now (column k highs.now) t)
        work.old work.new }
{
    for arc in graph.arcs() {
        work.reach(arc.to, crossing(highs, given, arc));
    }
}

/// Puts the state to which the event leads from `u` into the sets.
fn reach_exit(graph: &Graph, sets: u128, u: StateId, e: Event, work: &mut WordWork)
    requires graph { IsGraph graph.now }
    requires deterministic { IsDeterministic graph.now }
    requires size { IsSized graph.now.states work.old }
    ensures { GrowsAll (λ k t. (bit sets k ≡ true) × Step graph.now u e t) work.old work.new }
{
    if sets == 0 {
        return;
    }
    if let Some(w) = graph.succ(u, e) {
        work.reach(w, sets);
    }
}

/// Puts what the event of an arc leads to after another arc out of the same state into those of the
/// sets that have the end of the other one.
fn reach_past(graph: &Graph, sets: u128, arc: &Edge, beside: &Edge, work: &mut WordWork)
    requires graph { IsGraph graph.now }
    requires deterministic { IsDeterministic graph.now }
    requires beside { beside.now.to < graph.now.states }
    requires size { IsSized graph.now.states work.old }
    ensures { GrowsAll (λ k t. (bit sets k ≡ true) × (arc.now.event ≢ beside.now.event)
        × HasBit work.old.words k beside.now.to
        × Step graph.now beside.now.to arc.now.event t) work.old work.new }
{
    if beside.event == arc.event {
        return;
    }
    let both = sets & work.sets_of(beside.to);
    reach_exit(graph, both, beside.to, arc.event, work);
}

/// Puts what the event of an arc leads to after the others out of its source into the sets, each of
/// which has the end of the arc, as far as they have the ends of the others and the source is high.
fn reach_beside(graph: &Graph, highs: &[u128], sets: u128, arc: &Edge, work: &mut WordWork)
    requires arc { Contains graph.now.edges arc.now }
    requires turn { IsTurn graph.now highs.now sets arc.now.to work.old }
    ensures grows { Grows (BelongsTo graph.now highs.now) work.old work.new }
    ensures done { (k t : ℕ) (beside : Edge) → bit sets k ≡ true → Contains graph.now.edges beside
        → ExitsBeside graph.now (column k highs.now) (column k work.old.words)
        arc.now beside t → HasBit work.new.words k t }
{
    let high = sets & highs[arc.from.0 as usize];
    if high == 0 || !graph.is_driven(arc.event.sig) {
        return;
    }
    for beside in graph.arcs_out(arc.from) {
        reach_past(graph, high, arc, beside, work);
    }
}

/// Puts the source of an arc into those of the sets in which it is high.
fn reach_before(highs: &[u128], sets: u128, arc: &Edge, work: &mut WordWork)
    requires from { arc.now.from < length highs.now }
    requires size { IsSized (length highs.now) work.old }
    ensures { GrowsAll (λ k t. (t ≡ arc.now.from) × (bit sets k ≡ true)
        × IsIn (column k highs.now) arc.now.from) work.old work.new }
{
    work.reach(arc.from, sets & highs[arc.from.0 as usize]);
}

/// Puts what follows from the end of an arc, at its source and beside it, into the sets, each of
/// which has that end.
fn follow_back(graph: &Graph, highs: &[u128], sets: u128, arc: &Edge, work: &mut WordWork)
    requires arc { Contains graph.now.edges arc.now }
    requires turn { IsTurn graph.now highs.now sets arc.now.to work.old }
    ensures grows { Grows (BelongsTo graph.now highs.now) work.old work.new }
    ensures done { (k t : ℕ) → bit sets k ≡ true
        → FollowsBack graph.now (column k highs.now) (column k work.old.words) arc.now t
        → HasBit work.new.words k t }
{
    reach_before(highs, sets, arc, work);
    reach_beside(graph, highs, sets, arc, work);
}

/// Puts what follows from `x` along the arcs into it into the sets, each of which has `x`.
fn follow_into(graph: &Graph, highs: &[u128], sets: u128, x: StateId, work: &mut WordWork)
    requires { IsTurn graph.now highs.now sets x work.old }
    ensures grows { Grows (BelongsTo graph.now highs.now) work.old work.new }
    ensures done { (arc : Edge) → Contains graph.now.edges arc → arc.to ≡ x → (k t : ℕ)
        → bit sets k ≡ true
        → FollowsBack graph.now (column k highs.now) (column k work.old.words) arc t
        → HasBit work.new.words k t }
{
    let mut at = graph.first_in(x);
    while let Some(k) = at {
        let arc = graph.edge(k);
        follow_back(graph, highs, sets, &arc, work);
        at = graph.next_in(k);
    }
}

/// The sets in which the exit follows, by an arc into its source, from that: the event of the exit
/// led from the source of the arc too, which is low or led to a state of the set.
fn those_that_let(graph: &Graph, highs: &[u128], words: &[u128], exit: &Edge, before: &Edge) -> u128
    requires graph { IsGraph graph.now }
    requires deterministic { IsDeterministic graph.now }
    requires highs { length highs.now ≡ graph.now.states }
    requires words { length words.now ≡ graph.now.states }
    requires from { before.now.from < graph.now.states }
    ensures { (k : ℕ) → k < 128 → (bit result k ≡ true)
        ↔ LetsExit graph.now (column k highs.now) (column k words.now) exit.now before.now }
{
    if before.event == exit.event {
        return 0;
    }
    match graph.succ(before.from, exit.event) {
        None => 0,
        Some(t) => !highs[before.from.0 as usize] | words[t.0 as usize],
    }
}

/// The sets in which the exit follows by some arc into its source.
fn those_with_exit(graph: &Graph, highs: &[u128], words: &[u128], exit: &Edge) -> u128
    requires graph { IsGraph graph.now }
    requires deterministic { IsDeterministic graph.now }
    requires highs { length highs.now ≡ graph.now.states }
    requires words { length words.now ≡ graph.now.states }
    ensures { (k : ℕ) → k < 128 → (bit result k ≡ true)
        ↔ HasExit graph.now (column k highs.now) (column k words.now) exit.now }
{
    let mut found = 0;
    let mut at = graph.first_in(exit.from);
    while let Some(k) = at {
        found |= those_that_let(graph, highs, words, exit, &graph.edge(k));
        at = graph.next_in(k);
    }
    found
}

/// Those of the sets that the word doesn't have.
fn those_out_of(word: u128, sets: u128) -> u128
    ensures { (k : ℕ) → (bit result k ≡ true) ↔ ((bit sets k ≡ true) × (bit word k ≡ false)) }
{
    sets & !word
}

/// Puts the end of an arc into those of the sets, each of which has its source, in which it
/// follows.
fn follow_arc(graph: &Graph, highs: &[u128], sets: u128, arc: &Edge, work: &mut WordWork)
    requires graph { IsGraph graph.now }
    requires deterministic { IsDeterministic graph.now }
    requires highs { length highs.now ≡ graph.now.states }
    requires to { arc.now.to < graph.now.states }
    requires sig { arc.now.event.sig < length graph.now.signals }
    requires size { IsSized graph.now.states work.old }
    ensures { GrowsAll (λ k t. (t ≡ arc.now.to) × (bit sets k ≡ true)
        × FollowsOn graph.now (column k highs.now) (column k work.old.words) arc.now)
        work.old work.new }
{
    let more = those_out_of(work.sets_of(arc.to), sets);
    if more == 0 {
        return;
    }
    if !graph.is_driven(arc.event.sig) {
        work.reach(arc.to, more);
        return;
    }
    let exits = those_with_exit(graph, highs, work.words(), arc);
    work.reach(arc.to, more & exits);
}

/// Puts what follows from `x` along the arcs out of it into the sets, each of which has `x`.
fn follow_out(graph: &Graph, highs: &[u128], sets: u128, x: StateId, work: &mut WordWork)
    requires { IsTurn graph.now highs.now sets x work.old }
    ensures grows { Grows (BelongsTo graph.now highs.now) work.old work.new }
    ensures done { (arc : Edge) → Contains graph.now.edges arc → arc.from ≡ x → (k : ℕ)
        → bit sets k ≡ true
        → FollowsOn graph.now (column k highs.now) (column k work.old.words) arc
        → HasBit work.new.words k arc.to }
{
    for arc in graph.arcs_out(x) {
        follow_arc(graph, highs, sets, arc, work);
    }
}

/// Puts what follows from `x` and from what the sets have into the sets, each of which has `x`.
fn follow(graph: &Graph, highs: &[u128], sets: u128, x: StateId, work: &mut WordWork)
    requires { IsTurn graph.now highs.now sets x work.old }
    ensures grows { Grows (BelongsTo graph.now highs.now) work.old work.new }
    ensures done { (k t : ℕ) → bit sets k ≡ true
        → FollowsByRule graph.now (column k highs.now) (column k work.old.words) x t
        → HasBit work.new.words k t }
{
    if sets == 0 {
        return;
    }
    follow_into(graph, highs, sets, x, work);
    follow_out(graph, highs, sets, x, work);
}

/// Those of the given sets that have no state outside of the others.
fn those_inside(given: u128, words: &[u128], within: &[u128]) -> u128
    requires { length within.now ≡ length words.now }
    ensures given { (k : ℕ) → bit result k ≡ true → bit given k ≡ true }
    ensures others { (k : ℕ) → k < 128 → bit given k ≡ true → (bit result k ≡ true) ⊎ ((s : ℕ)
        × HasBit words.now k s × (bit (slice_index_or within.now s 0) k ≡ false)) }
{
    let mut kept = given;
    for s in 0..words.len() {
        kept &= !(words[s] & !within[s]);
    }
    kept
}

/// The states where the new signals switch to 1, which is the target of the states of `highs`: the
/// least sets that meet the rules, for those of the given functions for which they lie within the
/// others. As soon as a state outside is found, the function is dropped.
pub(crate) fn switching(
    alloc: Global,
    graph: &Graph,
    highs: &[u128],
    given: u128,
    within: &[u128],
) -> Result<Switched, NoMemory>
    requires graph { IsGraph graph.now }
    requires deterministic { IsDeterministic graph.now }
    requires highs { length highs.now ≡ graph.now.states }
    requires within { length within.now ≡ graph.now.states }
    ensures { IfOk result (AreSwitched graph.now highs.now given within.now) }
{
    let mut work = WordWork::none(alloc, graph.states())?;
    cross(graph, highs, given, &mut work);
    let mut kept = those_inside(given, work.words(), within);
    while let Some(x) = work.next_work() {
        let sets = kept & work.sets_of(x);
        let inside = sets & within[x.0 as usize];
        kept &= !(sets & !within[x.0 as usize]);
        follow(graph, highs, inside, x, &mut work);
    }
    Ok(Switched {
        words: work.into_words(),
        kept,
    })
}

/// The states where the first of the new signals switches to 1: the least set that meets the rules,
/// wherever its states lie.
pub(crate) fn switching_alone(
    alloc: Global,
    graph: &Graph,
    highs: &[u128],
) -> Result<StateSet, NoMemory>
    requires graph { IsGraph graph.now }
    requires deterministic { IsDeterministic graph.now }
    requires highs { length highs.now ≡ graph.now.states }
    ensures { IfOk result
        (IsLeast graph.now.states (Switches graph.now (target (column 0 highs.now)) true)) }
{
    let within = everywhere(alloc, graph.states())?;
    let found = switching(alloc, graph, highs, 1, &within)?;
    let set = set_at(alloc, &found.words, graph.states(), 0)?;
    Ok(set)
}
