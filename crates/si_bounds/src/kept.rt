//! What signals that wait for a new one add to the weight at least: most of their triggers stay
//! triggers, and the new signal becomes one.

ghost use Rattle.std.specs.Prelude.{◌≡◌, ◌<◌, ◌≤◌, ◌↔◌, ◌+◌, All, IsTrue, length};
ghost use Rattle.si_base.specs.Limits.{code_width};
ghost use Rattle.si_bounds.specs.Loops.Kept as kept;
ghost use Rattle.si_bounds.specs.Loops.Kept.{AddUpTo, AreAllKept, IsKeptLeast, IsTold};
ghost use Rattle.si_bounds.specs.Loops.Kept.{KeepsTrigger};

use si_base::graph::Edge;
use si_base::ids::{Code, Sig};
use si_graph::coded::Coded;
use si_insert::partition::Class;
use si_match::weight::size;

/// Whether the new signal switches at no state of the class.
fn is_stable(class: Class) -> bool
    ensures { result ≡ kept.is_stable class }
{
    match class {
        Class::Low | Class::High => true,
        Class::Rising | Class::Falling => false,
    }
}

/// Whether the arc is of another signal than `z`, the next value of `z` changes across it, and the
/// new signal switches at neither of its ends.
fn keeps_trigger(coded: &Coded, classes: &[Class], z: Sig, a: &Edge) -> bool
    requires from { a.now.from < coded.now.graph.states }
    requires to { a.now.to < coded.now.graph.states }
    requires signal { z < length coded.now.graph.signals }
    requires classes { length classes.now ≡ coded.now.graph.states }
    ensures { IsTrue result ↔ KeepsTrigger coded.now classes.now z a.now }
{
    coded.next_value(a.to, z) != coded.next_value(a.from, z)
        && a.event.sig != z
        && is_stable(classes[a.from.0 as usize])
        && is_stable(classes[a.to.0 as usize])
}

/// The triggers of `z` that stay triggers of it, a bit for each signal, as far as the classes alone
/// tell. Some arc of each changes the next value of `z` between states at which the new signal
/// doesn't switch. No arc out of these waits, so their copies have the same next values.
fn kept_triggers(coded: &Coded, classes: &[Class], z: Sig) -> Code
    requires signal { z < length coded.now.graph.signals }
    requires classes { length classes.now ≡ coded.now.graph.states }
    ensures { AreAllKept coded.now classes.now z result }
{
    let mut kept = Code(0);
    for a in coded.graph().arcs() {
        if !keeps_trigger(coded, classes, z, a) {
            continue;
        }
        kept = kept.set(a.event.sig, true);
    }
    kept
}

/// What a signal that waits adds at least, where no cell has more pins than `most`. Where an arc of
/// it waits, its next value changes as the new signal switches, which so is a trigger of it. Where
/// that and the kept ones are more than the pins, no cell fits, and no trigger is dropped.
fn kept_weight(coded: &Coded, classes: &[Class], most: u64, z: Sig) -> u64
    requires signal { z < length coded.now.graph.signals }
    requires classes { length classes.now ≡ coded.now.graph.states }
    ensures least { IsKeptLeast coded.now classes.now most z result }
    ensures small { result ≤ 2 + code_width }
{
    let kept = kept_triggers(coded, classes, z);
    let size = size(kept, coded.graph().signals().len());
    if size < most { 0 } else { 2 + size }
}

/// What a signal adds at least, whether it waits or not, where so much is known of it if it never
/// does. Of inputs, of signals that fit and of those with few triggers nothing is known: they are
/// passed over.
fn told_weight(coded: &Coded, classes: &[Class], most: u64, z: Sig, waits: bool, known: u64) -> u64
    requires signal { z < length coded.now.graph.signals }
    requires classes { length classes.now ≡ coded.now.graph.states }
    requires small { known ≤ 2 + code_width }
    ensures told { IsTold coded.now classes.now most z waits known result }
    ensures small { result ≤ 2 + code_width }
{
    if !waits || known == 0 {
        return known;
    }
    kept_weight(coded, classes, most, z)
}

/// What all signals add together at least, where some of them wait, so much is known of each that
/// doesn't, and no cell has more pins than `most`.
pub(crate) fn sum_with(
    coded: &Coded,
    classes: &[Class],
    most: u64,
    waiting: Code,
    least: &[u64],
) -> u64
    requires classes { length classes.now ≡ coded.now.graph.states }
    requires count { length least.now ≡ length coded.now.graph.signals }
    requires small { All (λ w. w ≤ 2 + code_width) least.now }
    ensures { AddUpTo coded.now classes.now most waiting 0 least.now result }
{
    let _given = coded.graph();
    let mut sum = 0;
    for i in 0..least.len() {
        let z = Sig(i as u8);
        sum += told_weight(coded, classes, most, z, waiting.get(z), least[i]);
    }
    sum
}
