//! The search for the best divisor, signal after signal and divisor after divisor.

ghost use Rattle.std.specs.Prelude.{◌≡◌, ◌<◌, ◌≤◌, ◌↔◌, ◌+◌, true, length, IsTrue};
ghost use Rattle.std.specs.Prelude.{All, IfOk, IfSome, IfNone, OnOk};
ghost use Rattle.si_base.specs.Bits.{IsSet};
ghost use Rattle.si_base.specs.Limits.{code_width, max_signals};
ghost use Rattle.si_base.specs.Graph.{IsNonInput};
ghost use Rattle.si_cell.specs.Library.{Library as LibraryValue, Instance as InstanceValue};
ghost use Rattle.si_checks.specs.Loops.Lent.{coded_of};
ghost use Rattle.si_divisor.specs.Functions.{IsFunction};
ghost use Rattle.si_divisor.specs.Loops.ManyFunctions.{AreFunctionSets};
ghost use Rattle.si_insert.specs.Accepted.{DelaysNoInput, IsAccepted, StaysProper};
ghost use Rattle.si_insert.specs.Partition.{IsLawful};
ghost use Rattle.si_match.specs.Weight.{weight_of};
ghost use Rattle.si_bounds.specs.Loops.Bounds.{AreBounds};
ghost use Rattle.si_bounds.specs.Loops.Fitted.{AreFitted};
ghost use Rattle.si_map.specs.Best.{IsBestPartition};
ghost use Rattle.si_map.specs.Loops.Progress.{IsReady, IsSearching, HasTried, IsTried};
ghost use Rattle.si_map.specs.Loops.Progress.{AreUpToDate, IsKnown, MayHaveRecorded, IsSpent};
ghost use Rattle.si_map.specs.Loops.Progress.{LeavesBelow, LeavesNoneBelow};

use crate::functions::{Functions, copy_of, functions_of};
use crate::packed::packed;
use crate::weight::{weight_below, weight_without};
use si_base::ids::{Code, NoMemory, Sig};
use si_base::text::Name;
use si_bounds::bounds::Bounds;
use si_bounds::waiting::waiting_signals;
use si_checks::distinct::Distinct;
use si_checks::proper::Proper;
use si_conflicts::chains::CodeChains;
use si_divisor::divisors::divisors;
use si_divisor::function::Function;
use si_graph::graph::Graph;
use si_insert::accept::{Accepted, accept_by_size};
use si_insert::apply::apply;
use si_insert::fresh::fresh_name;
use si_insert::partition::Partition;
use si_match::functions::LibraryFunctions;
use si_match::known::KnownFits;
use std::alloc::Global;
use std::collections::BTreeSet;

/// With what the names of signals begin that are inserted for the gates of others.
pub(crate) const STEM: &[u8] = b"map";

/// The most words of partitions that are kept so as not to be tried again.
const MAX_TRIED_WORDS: usize = 1 << 21;

/// The weight that the next divisor has to get below, the partition of the best divisor so far,
/// and what all divisors have in common: the rings of equal codes and the new signal's name. Many
/// functions have one partition, as where codes at which they differ are no state's. So those that
/// were tried are kept, each packed into words: none of them leaves a weight below the bar. Of each
/// signal it is known whether some cell fits it; and the bounds tell the weight that an insertion
/// leaves at least.
#[derive(Drop)]
struct Search {
    bar: u64,
    best: Option<Accepted>,
    tried: BTreeSet<Vec<u64>>,
    chains: CodeChains,
    name: Name,
    fitted: Code,
    bounds: Bounds,
}

/// The partition for the best divisor of a graph of which these signals fit, if a divisor serves.
pub(crate) fn find_best(
    alloc: Global,
    graph: Distinct<'_>,
    library: &LibraryFunctions<'_>,
    fitted: Code,
) -> Result<Option<Accepted>, NoMemory>
    requires { AreFitted (coded_of graph) library.now fitted }
    ensures { IfOk result (IsBestPartition (coded_of graph.entry) library.now) }
{
    let weight = weight_without(alloc, graph, fitted)?;
    let bounds = Bounds::of(alloc, graph, library, fitted)?;
    let mut search = Search::new(alloc, graph.proper(), weight, fitted, bounds)?;
    let mut functions = Functions::new(alloc);
    let known = graph.proper().coded().graph();
    for i in 0..known.signals().len() {
        let z = Sig(i as u8);
        if !known.is_driven(z) {
            continue;
        }
        search.try_signal(alloc, graph, library, z, &mut functions)?;
    }
    Ok(search.best)
}

impl Search {
    /// The search before all divisors.
    fn new(
        alloc: Global,
        graph: &Proper,
        weight: u64,
        fitted: Code,
        bounds: Bounds,
    ) -> Result<Search, NoMemory>
        ensures { IfOk result (λ s. (library : LibraryValue) → weight ≡ weight_of graph.now library
            → AreFitted graph.now library fitted → AreBounds graph.now library bounds
            → IsSearching graph.now library 0 0 s) }
    {
        Ok(Search {
            bar: weight,
            best: None,
            tried: BTreeSet::new(alloc),
            chains: CodeChains::new(alloc, graph)?,
            name: fresh_name(alloc, graph.coded().graph(), STEM)?,
            fitted,
            bounds,
        })
    }

    /// Looks at all divisors of the signal, if no cell fits it. Below the weight 0 there is none.
    /// The functions are those of the divisors that were looked at.
    fn try_signal(
        &mut self,
        alloc: Global,
        graph: Distinct<'_>,
        library: &LibraryFunctions<'_>,
        z: Sig,
        functions: &mut Functions,
    ) -> Result<(), NoMemory>
        requires driven { IsNonInput (coded_of graph).graph.signals z }
        requires before { IsSearching (coded_of graph) library.now z 0 self.old }
        requires known { AreUpToDate (coded_of graph) library.now self.old.bar functions.old }
        ensures after { OnOk result
            (IsSearching (coded_of graph.entry) library.now (z + 1) 0 self.new) }
        ensures known { OnOk result
            (AreUpToDate (coded_of graph.entry) library.now self.new.bar functions.new) }
    {
        if self.bar == 0 {
            return Ok(());
        }
        if self.fitted.get(z) {
            return Ok(());
        }
        let cells = library.library();
        let divisors = divisors(alloc, graph, cells, z)?;
        let coming = functions_of(alloc, cells, &divisors)?;
        for k in 0..coming.len() {
            let others = &coming[k + 1..];
            self.try_once(
                alloc,
                graph.proper(),
                library,
                &coming[k],
                others,
                functions,
            )?;
        }
        Ok(())
    }

    /// Looks at the divisors of one function, unless it was looked at. Below the weight 0 there is
    /// none. Behind it come the others.
    fn try_once(
        &mut self,
        alloc: Global,
        graph: &Proper,
        library: &LibraryFunctions<'_>,
        function: &Function,
        others: &[Function],
        functions: &mut Functions,
    ) -> Result<(), NoMemory>
        requires within { All (λ s. s < code_width) function.now.signals.items }
        requires others { All (λ f. All (λ s. s < code_width) f.signals.items) others.now }
        requires ready { IsReady graph.now library.now self.old }
        requires known { AreUpToDate graph.now library.now self.old.bar functions.old }
        ensures tried { OnOk result ((i : InstanceValue) → IsFunction library.now i function.now
            → HasTried graph.now library.now i self.old self.new) }
        ensures known { OnOk result
            (AreUpToDate graph.now library.now self.new.bar functions.new) }
    {
        if self.bar == 0 {
            return Ok(());
        }
        if functions.tried.contains(function) {
            return Ok(());
        }
        self.try_function(alloc, graph, library, function, others, functions)?;
        functions.tried.insert(copy_of(function))?;
        Ok(())
    }

    /// Looks at the divisors of one function. Behind it come the others.
    fn try_function(
        &mut self,
        alloc: Global,
        graph: &Proper,
        library: &LibraryFunctions<'_>,
        function: &Function,
        others: &[Function],
        functions: &mut Functions,
    ) -> Result<(), NoMemory>
        requires within { All (λ s. s < code_width) function.now.signals.items }
        requires others { All (λ f. All (λ s. s < code_width) f.signals.items) others.now }
        requires ready { IsReady graph.now library.now self.old }
        requires sets { AreFunctionSets graph.now functions.old.next }
        ensures tried { OnOk result ((i : InstanceValue) → IsFunction library.now i function.now
            → HasTried graph.now library.now i self.old self.new) }
        ensures lower { OnOk result (self.new.bar ≤ self.old.bar) }
        ensures spent { OnOk result ((i : InstanceValue) → IsFunction library.now i function.now
            → IsSpent graph.now library.now self.new.bar i) }
        ensures sets { OnOk result (AreFunctionSets graph.now functions.new.next) }
        ensures same { functions.new.tried ≡ functions.old.tried }
    {
        let found = functions.partition(alloc, graph, function, others)?;
        let Some(partition) = found else {
            return Ok(());
        };
        self.try_partition(alloc, graph, library, partition)?;
        Ok(())
    }

    /// Looks at one partition: it is the best so far if it is accepted, leaves no conflict and
    /// leaves a weight below the bar.
    fn try_partition(
        &mut self,
        alloc: Global,
        graph: &Proper,
        library: &LibraryFunctions<'_>,
        partition: Partition,
    ) -> Result<(), NoMemory>
        requires lawful { IsLawful graph.now.graph partition }
        requires proper { StaysProper graph.now.graph partition }
        requires inputs { DelaysNoInput graph.now.graph partition }
        requires ready { IsReady graph.now library.now self.old }
        ensures { OnOk result
            (IsTried graph.now library.now partition self.old self.new) }
    {
        let words = packed(alloc, partition.classes())?;
        if self.has_tried(&partition, &words) {
            return Ok(());
        }
        let accepted = match accept_by_size(graph, partition) {
            Ok(accepted) => accepted,
            Err(_refused) => return self.keep_tried(words),
        };
        let left = self.weight_left(alloc, graph, library, &accepted)?;
        let Some(weight) = left else {
            return self.keep_tried(words);
        };
        self.bar = weight;
        self.best = Some(accepted);
        Ok(())
    }

    /// Keeps the partition with these words among those that were tried, as long as they are few.
    fn keep_tried(&mut self, words: Vec<u64>) -> Result<(), NoMemory>
        ensures { OnOk result (MayHaveRecorded self.old words self.new) }
    {
        if self.tried.len() < MAX_TRIED_WORDS / (words.len() + 1) {
            self.tried.insert(words)?;
        }
        Ok(())
    }

    /// Whether the partition with these words is the best so far, or is kept as tried.
    fn has_tried(&self, partition: &Partition, words: &Vec<u64>) -> bool
        ensures { IsTrue result → IsKnown self.now partition.now words.now }
    {
        if let Some(best) = &self.best {
            if is_same(best.partition(), partition) {
                return true;
            }
        }
        self.tried.contains(words)
    }

    /// The weight that the partition leaves, if it leaves no conflict and a weight below the bar.
    /// The graph isn't made where the bounds tell that it weighs as much.
    fn weight_left(
        &mut self,
        alloc: Global,
        graph: &Proper,
        library: &LibraryFunctions<'_>,
        accepted: &Accepted,
    ) -> Result<Option<u64>, NoMemory>
        requires accepted { IsAccepted graph.now.graph accepted.now }
        requires ready { IsReady graph.now library.now self.old }
        ensures below { IfOk result
            (λ o. IfSome o (LeavesBelow graph.now library.now accepted.now self.old.bar)) }
        ensures none { IfOk result
            (λ o. IfNone o (LeavesNoneBelow graph.now library.now accepted.now self.old.bar)) }
        ensures same { self.new ≡ self.old }
    {
        let coded = graph.coded();
        let classes = accepted.partition().classes();
        let waiting = waiting_signals(coded.graph(), classes);
        let bounds = &self.bounds;
        if !bounds.may_weigh_below(alloc, coded, classes, waiting, self.bar)? {
            return Ok(None);
        }
        let free = self.chains.trial_below(alloc, graph, classes, 1)?;
        if free.is_none() {
            return Ok(None);
        }
        let inserted = apply(alloc, graph, accepted, &self.name)?;
        let distinct = Distinct::known(&inserted);
        let known = known_fits(coded.graph(), waiting, self.fitted);
        let weight = weight_below(alloc, distinct, library, &known, self.bar)?;
        Ok(weight)
    }
}

/// What is known of the fits after an insertion for which these signals may wait, where those
/// fitted before: of the ones that may wait, and of the new signal, nothing. The others fit as
/// before, and where they didn't, only an instance that reads the new signal may fit now.
fn known_fits(graph: &Graph, waiting: Code, fitted: Code) -> KnownFits
    requires { length graph.now.signals < max_signals }
    ensures unknown { IsSet waiting (length graph.now.signals) true result.unknown }
    ensures fitted { result.fitted ≡ fitted }
    ensures read { result.read ≡ length graph.now.signals }
{
    let new = Sig(graph.signals().len() as u8);
    KnownFits {
        unknown: waiting.set(new, true),
        fitted,
        read: new,
    }
}

/// Whether the partitions have the same classes.
fn is_same(one: &Partition, other: &Partition) -> bool
    ensures { IsTrue result ↔ (one.now ≡ other.now) }
{
    one.classes() == other.classes()
}
