//! What is known of all signals before an insertion, and the weight that is left at least by it.

ghost use Rattle.std.specs.Prelude.{◌≡◌, ◌≤◌, ℕ, All, IfOk, IfSome, false, length, true};
ghost use Rattle.si_base.specs.Bits.{bit};
ghost use Rattle.si_base.specs.Limits.{code_width};
ghost use Rattle.si_cell.specs.Library.{Library as LibraryValue};
ghost use Rattle.si_checks.specs.Loops.Lent.{coded_of};
ghost use Rattle.si_insert.specs.Partition.{IsLawful};
ghost use Rattle.si_bounds.specs.Loops.Bounds.{AreBounds, AreSomeBounds, Tell, Tells};
ghost use Rattle.si_bounds.specs.Loops.Fitted.{AreFitted};
ghost use Rattle.si_bounds.specs.Loops.Least.{WeighsAtLeast};
ghost use Rattle.si_bounds.specs.Loops.Unfit.{IsUnfitOfSize};
ghost use Rattle.si_bounds.specs.Loops.Waiting.{NeverWaits, Waits};

use crate::kept::sum_with;
use crate::least::{most_pins, sum_without};
use crate::needs::stable_states;
use crate::unfit::Unfit;
use si_base::ids::{Code, NoMemory, Sig};
use si_base::sets::StateSet;
use si_checks::distinct::Distinct;
use si_graph::coded::Coded;
use si_insert::partition::Class;
use si_match::functions::LibraryFunctions;
use std::alloc::Global;

/// What is known of each signal of a graph that the circuit drives and that no cell fits, and the
/// most pins of a cell.
#[derive(Drop)]
pub struct Bounds {
    /// Of each other signal nothing.
    unfit: Vec<Option<Unfit>>,
    most: u64,
}

impl Bounds {
    /// What is known of the signals of the graph, where these fit. It fails only where memory runs
    /// out.
    pub fn of(
        alloc: Global,
        graph: Distinct<'_>,
        library: &LibraryFunctions<'_>,
        fitted: Code,
    ) -> Result<Bounds, NoMemory>
        requires { AreFitted (coded_of graph) library.now fitted }
        ensures { IfOk result (AreBounds (coded_of graph.entry) library.now) }
    {
        let known = graph.proper().coded().graph();
        let most = most_pins(library.library());
        let mut unfit = Vec::new(alloc);
        for i in 0..known.signals().len() {
            let z = Sig(i as u8);
            if !known.is_driven(z) || fitted.get(z) {
                unfit.push(None)?;
                continue;
            }
            unfit.push(Some(Unfit::of(alloc, graph, library, z)?))?;
        }
        Ok(Bounds { unfit, most })
    }

    /// Whether a graph without conflicts, inserted by these classes, may weigh less than the bar
    /// where just these signals wait. The signals that never wait are added up alone at first, since
    /// that takes no look at the arcs. Then those that wait are added by the triggers that they keep.
    /// It fails only where memory runs out.
    pub fn may_weigh_below(
        &self,
        alloc: Global,
        graph: &Coded,
        classes: &[Class],
        waiting: Code,
        bar: u64,
    ) -> Result<bool, NoMemory>
        requires lawful { IsLawful graph.now.graph classes.now }
        requires never { (z : ℕ) → bit waiting z ≡ false
            → NeverWaits graph.now.graph classes.now z }
        requires waits { (z : ℕ) → bit waiting z ≡ true → Waits graph.now.graph classes.now z }
        requires bounds { AreSomeBounds graph.now self.now }
        ensures { IfOk result (λ may. may ≡ false → (library : LibraryValue)
            → AreBounds graph.now library self.now
            → WeighsAtLeast graph.now library classes.now bar) }
    {
        let _given = graph.graph();
        let (high, low) = stable_states(alloc, classes)?;
        let least = self.least_weights(alloc, &high, &low, waiting)?;
        if sum_without(&least, waiting) >= bar {
            return Ok(false);
        }
        Ok(sum_with(graph, classes, self.most, waiting, &least) < bar)
    }

    /// For each signal what it adds at least where these signals wait and the others have these
    /// High and Low states. It fails only where memory runs out.
    fn least_weights(
        &self,
        alloc: Global,
        high: &StateSet,
        low: &StateSet,
        waiting: Code,
    ) -> Result<Vec<u64>, NoMemory>
        requires few { length self.now.unfit.items ≤ code_width }
        requires size { All (λ o. IfSome o (IsUnfitOfSize (length high.now))) self.now.unfit.items }
        requires low { length low.now ≡ length high.now }
        ensures { IfOk result
            (λ least. Tell high.now low.now waiting self.now.unfit.items
            (length self.now.unfit.items) least.items) }
    {
        let mut least = Vec::new(alloc);
        for i in 0..self.unfit.len() {
            let waits = waiting.get(Sig(i as u8));
            least.push(least_of(&self.unfit[i], waits, high, low))?;
        }
        Ok(least)
    }
}

/// What a signal adds at least, of which that is known. Of one that waits its triggers are to tell
/// more.
fn least_of(known: &Option<Unfit>, waits: bool, high: &StateSet, low: &StateSet) -> u64
    requires size { IfSome known.now (IsUnfitOfSize (length high.now)) }
    requires low { length low.now ≡ length high.now }
    ensures { Tells high.now low.now known.now waits result }
{
    match known {
        None => 0,
        Some(_) if waits => 1,
        Some(unfit) => unfit.least(high, low),
    }
}
