//! The states of the current graph over which the next hidden signal switches.

ghost use Rattle.std.specs.Prelude.{◌≡◌, ◌≢◌, ◌<◌, AllPairs, IfOk, false, length, replicate};
ghost use Rattle.std.specs.Prelude.{if◌then◌else◌, slice_set, true};
ghost use Rattle.si_base.specs.Graph.{IsNonInput};
ghost use Rattle.si_base.specs.Limits.{max_signals};
ghost use Rattle.si_certified.specs.Sets.{AreSwitchSets};
ghost use Rattle.si_finder.specs.Loops.Turns.{AreTurnSets};
ghost use Rattle.si_reached.specs.Laws.{AreTold};

use crate::places::Places;
use crate::turn::turn_at;
use si_base::ids::{NoMemory, Sig, StateId};
use si_base::sets::StateSet;
use si_base::text_key::TextKey;
use si_insert::lineage::Lineage;
use si_netlist::netlist::Netlist;
use si_reached::state::Reached;
use std::alloc::Global;

/// The states over which a signal is about to rise, and those over which it is about to fall.
#[derive(Drop)]
pub struct SwitchSets {
    pub plus: StateSet,
    pub minus: StateSet,
}

impl SwitchSets {
    /// Two empty sets of that size. It fails only where memory runs out.
    fn empty(alloc: Global, states: u32) -> Result<SwitchSets, NoMemory>
        ensures plus { IfOk result (λ x. x.plus ≡ replicate states false) }
        ensures minus { IfOk result (λ x. x.minus ≡ replicate states false) }
    {
        let plus = StateSet::new(alloc, states)?;
        let minus = StateSet::new(alloc, states)?;
        Ok(SwitchSets { plus, minus })
    }

    /// Puts the state where the signal rises, or where it falls.
    fn add(&mut self, s: StateId, up: bool)
        requires plus { s < length self.old.plus }
        requires minus { s < length self.old.minus }
        ensures plus { self.new.plus
            ≡ (if up then slice_set self.old.plus s true else self.old.plus) }
        ensures minus { self.new.minus
            ≡ (if up then self.old.minus else slice_set self.old.minus s true) }
    {
        if up {
            self.plus.add(s);
        } else {
            self.minus.add(s);
        }
    }
}

/// The sets of the states over which some of these states of the circuit show signal `z` about to
/// switch, of so many states. It fails only where memory runs out.
fn turn_sets(
    alloc: Global,
    states: u32,
    places: &Places,
    netlist: &Netlist,
    z: Sig,
    reached: &[Reached],
) -> Result<SwitchSets, NoMemory>
    requires count { length places.now ≡ states }
    requires once { AllPairs (λ x y. x ≢ y) places.now }
    requires few { z < max_signals }
    requires gate { IsNonInput netlist.now.signals z }
    ensures { IfOk result
        (λ x. AreTurnSets netlist.now places.now z reached.now x.plus x.minus) }
{
    let mut sets = SwitchSets::empty(alloc, states)?;
    for x in reached {
        if let Some(turn) = turn_at(places, netlist, z, x) {
            sets.add(turn.state, turn.up);
        }
    }
    Ok(sets)
}

/// The states of the lineage's current graph over which the circuit, of which these are all states,
/// is about to let the next hidden signal of the netlist rise, and to let it fall. It fails only
/// where memory runs out. The key changes no answer.
pub fn switch_sets(
    alloc: Global,
    key: TextKey,
    lineage: &Lineage,
    netlist: &Netlist,
    reached: &[Reached],
) -> Result<SwitchSets, NoMemory>
    requires told { AreTold lineage.now.given.graph netlist.now reached.now }
    requires next { IsNonInput netlist.now.signals
        (length lineage.now.current.coded.graph.signals) }
    ensures { IfOk result (λ x. AreSwitchSets lineage.now.given.graph netlist.now
        lineage.now.current x.plus x.minus) }
{
    // What holds of each netlist comes with its signals.
    let _signals = netlist.signals();
    let graph = lineage.current().coded().graph();
    let next = Sig(graph.signals().len() as u8);
    let places = Places::of(alloc, key, lineage)?;
    turn_sets(alloc, graph.states(), &places, netlist, next, reached)
}
