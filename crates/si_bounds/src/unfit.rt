//! What is known of a signal that no cell fits, before a further signal is inserted.

ghost use Rattle.std.specs.Prelude.{◌≡◌, ◌≤◌, ◌+◌, IfOk, List, None, length};
ghost use Rattle.si_base.specs.Graph.{IsNonInput};
ghost use Rattle.si_base.specs.Limits.{code_width};
ghost use Rattle.si_checks.specs.Loops.Lent.{coded_of};
ghost use Rattle.si_insert.specs.declared.partition.Class.{Class as ClassValue};
ghost use Rattle.si_match.specs.Fit.{first_fit};
ghost use Rattle.si_bounds.specs.Loops.Needs.{AreStable};
ghost use Rattle.si_bounds.specs.Loops.Unfit.{IsUnfitOfSize, KnowsUnfit, TellsLeast};

use crate::needs::{Need, may_fit, needs_of};
use crate::supports::{KnownSupport, known_support};
use si_base::ids::{NoMemory, Sig};
use si_base::sets::StateSet;
use si_checks::distinct::Distinct;
use si_match::functions::LibraryFunctions;
use si_match::support::support;
use si_match::triggers::trigger_signals;
use std::alloc::Global;

/// What a signal that no cell fits needs so that one fits it after an insertion, as far as that is
/// known, and what is known of its support. Both hold where no arc of it waits for the new signal.
#[derive(Drop)]
pub(crate) struct Unfit {
    needs: Option<Vec<Need>>,
    support: KnownSupport,
}

impl Unfit {
    /// What is known of `z`. It fails only where memory runs out.
    pub(crate) fn of(
        alloc: Global,
        graph: Distinct<'_>,
        library: &LibraryFunctions<'_>,
        z: Sig,
    ) -> Result<Unfit, NoMemory>
        requires driven { IsNonInput (coded_of graph).graph.signals z }
        requires unfit { first_fit (coded_of graph) library.now z ≡ None }
        ensures { IfOk result (KnowsUnfit (coded_of graph.entry) library.now z) }
    {
        let triggers = trigger_signals(graph, z);
        let support = support(alloc, graph, z)?;
        Ok(Unfit {
            needs: needs_of(alloc, graph, library, z)?,
            support: known_support(alloc, graph, z, support, triggers)?,
        })
    }

    /// What the signal adds at least to the weight of a graph that is inserted with these High and
    /// Low states, if no arc of it waits there. Where it needs other states, no cell fits it, and
    /// it adds one more than its support has signals.
    pub(crate) fn least(&self, high: &StateSet, low: &StateSet) -> u64
        requires size { IsUnfitOfSize (length high.now) self.now }
        requires low { length low.now ≡ length high.now }
        ensures tells { (classes : List ClassValue) → AreStable classes high.now low.now
            → TellsLeast classes high.now low.now self.now result }
        ensures small { result ≤ 2 + code_width }
    {
        match &self.needs {
            Some(needs) if !may_fit(needs, high, low) => 1 + self.support.least_size(high, low),
            _ => 0,
        }
    }
}
