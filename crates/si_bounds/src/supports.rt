//! How many signals the support of a signal has at least after an insertion, if none of its arcs
//! waits for the new signal. That is told before the inserted graph is made.
//!
//! The support is what is left when all signals are dropped in signal order that aren't needed. A
//! signal is needed where the others, that is those kept so far and all behind it, have the same
//! values at states with different next values. Such states are a group. The new signal is the last
//! one, and tells the states of a group apart only in two cases. Either those with next value 1 are
//! all High and those with 0 all Low, or the other way round. Else the group stays mixed. Where
//! some group of each signal stays mixed, just the same signals are needed afterwards.

ghost use Rattle.std.specs.Prelude.{◌≡◌, ℕ, ◌<◌, ◌≤◌, ◌+◌, ◌↔◌, All, IfOk, IsTrue, bit_and, length};
ghost use Rattle.std.specs.Prelude.{false, true};
ghost use Rattle.std.specs.List.Sorted.{IsNonDecreasing};
ghost use Rattle.si_base.specs.Codes.{CodedGraph, IsCoded, code, next_value};
ghost use Rattle.si_base.specs.Graph.{IsNonInput};
ghost use Rattle.si_base.specs.Limits.{code_width};
ghost use Rattle.si_base.specs.Sets.{IsIn};
ghost use Rattle.si_checks.specs.Loops.Lent.{coded_of};
ghost use Rattle.si_match.specs.Loops.Codes.{AreCodes};
ghost use Rattle.si_match.specs.Support.{support_of};
ghost use Rattle.si_bounds.specs.Loops.Least.{AreAllTriggers};
ghost use Rattle.si_bounds.specs.Loops.Supports.{AreAllMixed, AreGroups, AreGroupsOfSize};
ghost use Rattle.si_bounds.specs.Loops.Supports.{AreOthers, AreStatesWith, BoundsSupport};
ghost use Rattle.si_bounds.specs.Loops.Supports.{HaveMixed, IsGroup, IsGroupOfSize, IsKnownOfSize};
ghost use Rattle.si_bounds.specs.Loops.Supports.{IsLeastSize, IsSeparated, KnowsSupport};
ghost use Rattle.si_bounds.specs.Loops.Supports.{ShowFurther};

use si_base::ids::{Code, NoMemory, Sig, StateId};
use si_base::sets::StateSet;
use si_checks::distinct::Distinct;
use si_cube::codes::in_order;
use si_graph::coded::Coded;
use si_match::codes::cut;
use si_match::weight::size;
use std::alloc::Global;

/// The most groups that are kept for one set of signals. More of them hardly ever tell more: one
/// that stays mixed is enough, and mostly the first does.
const MAX_GROUPS: usize = 8;

/// All states with the same values of some signals, by the next value of another one, of which both
/// values occur. So those signals don't tell the states apart.
#[derive(Drop)]
struct Group {
    ones: StateSet,
    zeros: StateSet,
}

impl Group {
    /// The states at which the signals have the values of `key`. It fails only where memory runs
    /// out.
    fn of(alloc: Global, coded: &Coded, z: Sig, signals: Code, key: Code) -> Result<Group, NoMemory>
        requires { z < length coded.now.graph.signals }
        ensures ones { IfOk result
            (λ group. AreStatesWith coded.now z true signals key group.ones) }
        ensures zeros { IfOk result
            (λ group. AreStatesWith coded.now z false signals key group.zeros) }
    {
        Ok(Group {
            ones: states_with(alloc, coded, z, true, signals, key)?,
            zeros: states_with(alloc, coded, z, false, signals, key)?,
        })
    }

    /// Whether a new signal with these High and Low states tells the states apart by their next
    /// values.
    fn is_separated(&self, high: &StateSet, low: &StateSet) -> bool
        requires size { IsGroupOfSize (length high.now) self.now }
        requires low { length low.now ≡ length high.now }
        ensures { IsTrue result ↔ IsSeparated high.now low.now self.now }
    {
        self.ones.is_subset(high) && self.zeros.is_subset(low)
            || self.ones.is_subset(low) && self.zeros.is_subset(high)
    }
}

/// Some of the groups of one set of signals.
#[derive(Drop)]
struct Groups {
    list: Vec<Group>,
}

impl Groups {
    /// The first groups of the signals, in the order of their values; none only where the signals
    /// determine the next value of `z`. It fails only where memory runs out.
    fn of(alloc: Global, coded: &Coded, z: Sig, signals: Code) -> Result<Groups, NoMemory>
        requires coded { IsCoded coded.now }
        requires signal { z < length coded.now.graph.signals }
        ensures { IfOk result (AreGroups coded.now z signals) }
    {
        let on = codes_with(alloc, coded, z, true, signals)?;
        let off = codes_with(alloc, coded, z, false, signals)?;
        let mut list = Vec::new(alloc);
        for key in &on {
            if list.len() == MAX_GROUPS {
                return Ok(Groups { list });
            }
            if off.binary_search(key).is_err() {
                continue;
            }
            list.push(Group::of(alloc, coded, z, signals, *key)?)?;
        }
        Ok(Groups { list })
    }

    /// Whether some group stays mixed beside a new signal with these High and Low states.
    fn have_mixed(&self, high: &StateSet, low: &StateSet) -> bool
        requires size { AreGroupsOfSize (length high.now) self.now }
        requires low { length low.now ≡ length high.now }
        ensures { IsTrue result ↔ HaveMixed high.now low.now self.now }
    {
        for group in &self.list {
            if !group.is_separated(high, low) {
                return true;
            }
        }
        false
    }
}

/// What is known of the support of a signal.
#[derive(Drop)]
pub(crate) struct KnownSupport {
    /// How many signals it has.
    size: u64,
    /// How many of them are triggers.
    triggers: u64,
    /// Groups that the triggers alone don't tell apart.
    untold: Groups,
    /// For each further signal of the support groups that the others don't tell apart.
    further: Vec<Groups>,
}

impl KnownSupport {
    /// How many signals the support has at least after an insertion with these High and Low
    /// states, if no arc of the signal waits for the new one. It stays as it is where each further
    /// signal is still needed. Else it may get the new signal. It keeps the triggers, and needs one
    /// more where these and the new signal leave a group mixed.
    pub(crate) fn least_size(&self, high: &StateSet, low: &StateSet) -> u64
        requires size { IsKnownOfSize (length high.now) self.now }
        requires low { length low.now ≡ length high.now }
        ensures least { IsLeastSize high.now low.now self.now result }
        ensures bound { (c : CodedGraph) (z : ℕ) → KnowsSupport c z self.now
            → BoundsSupport c z high.now low.now result }
        ensures small { result ≤ 1 + code_width }
    {
        if self.are_all_mixed(high, low) {
            self.size
        } else if self.untold.have_mixed(high, low) {
            self.size.min(self.triggers + 2)
        } else {
            self.triggers + 1
        }
    }

    /// Whether each further signal is still needed: some group of it stays mixed.
    fn are_all_mixed(&self, high: &StateSet, low: &StateSet) -> bool
        requires size { IsKnownOfSize (length high.now) self.now }
        requires low { length low.now ≡ length high.now }
        ensures { IsTrue result ↔ AreAllMixed high.now low.now self.now }
    {
        for groups in &self.further {
            if !groups.have_mixed(high, low) {
                return false;
            }
        }
        true
    }
}

/// What is known of the support of `z`, which has these signals and all triggers. It fails only
/// where memory runs out.
pub(crate) fn known_support(
    alloc: Global,
    graph: Distinct<'_>,
    z: Sig,
    support: Code,
    triggers: Code,
) -> Result<KnownSupport, NoMemory>
    requires driven { IsNonInput (coded_of graph).graph.signals z }
    requires support { support ≡ support_of (coded_of graph) z }
    requires triggers { AreAllTriggers (coded_of graph) z triggers }
    ensures { IfOk result (KnowsSupport (coded_of graph.entry) z) }
{
    let coded = graph.proper().coded();
    let count = coded.graph().signals().len();
    Ok(KnownSupport {
        size: size(support, count),
        triggers: size(triggers, count),
        untold: Groups::of(alloc, coded, z, triggers)?,
        further: further_groups(alloc, coded, z, support, triggers)?,
    })
}

/// For each signal of the support that is no trigger groups that the others don't tell apart.
fn further_groups(
    alloc: Global,
    coded: &Coded,
    z: Sig,
    support: Code,
    triggers: Code,
) -> Result<Vec<Groups>, NoMemory>
    requires signal { z < length coded.now.graph.signals }
    requires support { support ≡ support_of coded.now z }
    ensures { IfOk result (λ further. ShowFurther coded.now z triggers
        (length coded.now.graph.signals) further.items) }
{
    let count = coded.graph().signals().len();
    let mut further = Vec::new(alloc);
    for i in 0..count {
        let sig = Sig(i as u8);
        if !support.get(sig) || triggers.get(sig) {
            continue;
        }
        further.push(Groups::of(alloc, coded, z, others(support, sig, count))?)?;
    }
    Ok(further)
}

/// Of the signals that are there when `i` is tried all but `i` itself: those of the support, and
/// all behind `i`.
fn others(support: Code, i: Sig, count: usize) -> Code
    requires within { i < count }
    requires few { count ≤ code_width }
    ensures { AreOthers support count i result }
{
    let later = Code::ones(count).0 ^ Code::ones(i.0 as usize + 1).0;
    Code(support.0 | later).set(i, false)
}

/// The values of these signals in the codes of the states at which `z` has the next value, in
/// ascending order.
fn codes_with(
    alloc: Global,
    coded: &Coded,
    z: Sig,
    value: bool,
    signals: Code,
) -> Result<Vec<Code>, NoMemory>
    requires { z < length coded.now.graph.signals }
    ensures in_order { IfOk result (λ codes. IsNonDecreasing codes.items) }
    ensures same { IfOk result (λ codes. AreCodes coded.now z value signals codes.items) }
{
    let mut codes = Vec::new(alloc);
    for s in 0..coded.graph().states() {
        let s = StateId(s);
        if coded.next_value(s, z) != value {
            continue;
        }
        codes.push(cut(coded.code(s), signals))?;
    }
    Ok(in_order(codes))
}

/// The states at which these signals have the values of `key` and `z` has the next value.
fn states_with(
    alloc: Global,
    coded: &Coded,
    z: Sig,
    value: bool,
    signals: Code,
    key: Code,
) -> Result<StateSet, NoMemory>
    requires { z < length coded.now.graph.signals }
    ensures { IfOk result (AreStatesWith coded.now z value signals key) }
{
    let states = coded.graph().states();
    let mut set = StateSet::new(alloc, states)?;
    for s in 0..states {
        let s = StateId(s);
        if cut(coded.code(s), signals) != key || coded.next_value(s, z) != value {
            continue;
        }
        set.add(s);
    }
    Ok(set)
}
