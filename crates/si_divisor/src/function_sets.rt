//! The partitions for many functions at once.

ghost use Rattle.std.specs.Prelude.{◌≡◌, ◌≢◌, ℕ, ◌<◌, ◌≤◌, ◌↔◌, Bool, true, All, IfOk, MatchOption};
ghost use Rattle.std.specs.Prelude.{false, length, slice_index_or};
ghost use Rattle.si_base.specs.Bits.{bit};
ghost use Rattle.si_base.specs.Limits.{code_width};
ghost use Rattle.si_closures.specs.Loops.WordSearch.{column};
ghost use Rattle.si_divisor.specs.declared.function.Function.{Function as FunctionValue};
ghost use Rattle.si_divisor.specs.Functions.{Computes};
ghost use Rattle.si_divisor.specs.Loops.ManyFunctions.{AreClassesAt, AreForcedWords};
ghost use Rattle.si_divisor.specs.Loops.ManyFunctions.{AreFunctionSets, AreHeldWords};
ghost use Rattle.si_divisor.specs.Loops.ManyFunctions.{AreOpposed, AreSettledWords};
ghost use Rattle.si_divisor.specs.PartitionFor.{Answers, HasSome};
ghost use Rattle.si_divisor.specs.Targets.{AreForced, forced_by};

use crate::classes::class_at;
use crate::forced::{ForcedWords, forced_words};
use crate::function::Function;
use crate::switching::{Switched, switching};
use si_base::ids::NoMemory;
use si_checks::proper::Proper;
use si_closures::word_search::closures;
use si_closures::words::{everywhere, has_bit};
use si_insert::partition::{Class, Partition};
use std::alloc::Global;

/// What each of at most 128 functions makes of the states, as the gate of a new signal: those that
/// settle at 1, and those where the signal rises and falls, as far as it has a partition. A word
/// stands for each state; its bit k is that of the function at k.
///
/// One search serves all the functions, and takes hardly longer than that for one. A function is
/// dropped as soon as its signal would have to switch where it doesn't force the value.
#[derive(Drop)]
pub struct FunctionSets {
    functions: Vec<Function>,
    ones: Vec<u128>,
    plus: Vec<u128>,
    minus: Vec<u128>,
    /// The functions for which there is a partition.
    partitions: u128,
}

impl FunctionSets {
    /// The sets of no function.
    pub fn none(alloc: Global) -> FunctionSets
        ensures { length result.functions.items ≡ 0 }
    {
        FunctionSets {
            functions: Vec::new(alloc),
            ones: Vec::new(alloc),
            plus: Vec::new(alloc),
            minus: Vec::new(alloc),
            partitions: 0,
        }
    }

    /// The sets of the functions. It fails only where memory runs out.
    pub fn make(
        alloc: Global,
        graph: &Proper,
        functions: Vec<Function>,
    ) -> Result<FunctionSets, NoMemory>
        requires few { length functions.items ≤ 128 }
        requires within { All (λ f. All (λ s. s < code_width) f.signals.items) functions.items }
        ensures functions { IfOk result (λ sets. sets.functions.items ≡ functions.items) }
        ensures sets { IfOk result (AreFunctionSets graph.now) }
    {
        let g = graph.coded().graph();
        let SettledWords {
            up,
            down,
            ones,
            zeros,
        } = settled_words(alloc, graph, &functions)?;
        let targets = those_with_targets(&ones, &zeros);
        let Switched {
            words: plus,
            kept: rising,
        } = switching(alloc, g, &ones, targets, &up)?;
        let Switched {
            words: minus,
            kept: falling,
        } = switching(alloc, g, &zeros, rising, &down)?;
        let partitions = falling & those_with_some(&plus) & those_with_some(&minus);
        Ok(FunctionSets {
            functions,
            ones,
            plus,
            minus,
            partitions,
        })
    }

    /// The place of the function among those whose sets these are.
    pub fn place_of(&self, function: &Function) -> Option<usize>
        ensures { MatchOption result
            ((k : ℕ) (d : FunctionValue) → k < length self.now.functions.items
            → slice_index_or self.now.functions.items k d ≢ function.now)
            (λ k. (k < length self.now.functions.items) × ((d : FunctionValue)
            → slice_index_or self.now.functions.items k d ≡ function.now)) }
    {
        for k in 0..self.functions.len() {
            if self.functions[k] == *function {
                return Some(k);
            }
        }
        None
    }

    /// The partition for the function at that place; `None` exactly where there is none. It fails
    /// only where memory runs out.
    pub fn partition(
        &self,
        alloc: Global,
        graph: &Proper,
        k: usize,
    ) -> Result<Option<Partition>, NoMemory>
        requires sets { AreFunctionSets graph.now self.now }
        requires place { k < length self.now.functions.items }
        ensures { IfOk result (λ found. (d : FunctionValue) (value : ℕ → Bool → Bool)
            → Computes (slice_index_or self.now.functions.items k d) value
            → Answers graph.now value found) }
    {
        let _given = graph.coded().graph();
        if !has_bit(self.partitions, k as u32) {
            return Ok(None);
        }
        let classes = self.classes_at(alloc, k as u32)?;
        Ok(Some(Partition::known(graph, classes)))
    }

    /// The classes of the states by the sets of the function at that place. It fails only where
    /// memory runs out.
    fn classes_at(&self, alloc: Global, k: u32) -> Result<Vec<Class>, NoMemory>
        requires place { k < 128 }
        requires minus { length self.now.minus.items ≡ length self.now.plus.items }
        requires ones { length self.now.ones.items ≡ length self.now.plus.items }
        ensures { IfOk result (λ classes.
            AreClassesAt (length self.now.plus.items) k self.now classes.items) }
    {
        let mut classes = Vec::new(alloc);
        for s in 0..self.plus.len() {
            let rises = has_bit(self.plus[s], k);
            let falls = has_bit(self.minus[s], k);
            let is_one = has_bit(self.ones[s], k);
            classes.push(class_at(rises, falls, is_one))?;
        }
        Ok(classes)
    }
}

/// For each state the functions that force it to 1 and to 0, and those for which it settles at 1
/// and at 0, a bit for each.
#[derive(Drop)]
pub(crate) struct SettledWords {
    pub(crate) up: Vec<u128>,
    pub(crate) down: Vec<u128>,
    pub(crate) ones: Vec<u128>,
    pub(crate) zeros: Vec<u128>,
}

/// What the functions force, and where states settle. It fails only where memory runs out.
pub(crate) fn settled_words(
    alloc: Global,
    graph: &Proper,
    functions: &[Function],
) -> Result<SettledWords, NoMemory>
    requires few { length functions.now ≤ 128 }
    requires within { All (λ f. All (λ s. s < code_width) f.signals.items) functions.now }
    ensures up { IfOk result (λ r. AreForcedWords graph.now functions.now true r.up.items) }
    ensures down { IfOk result (λ r. AreForcedWords graph.now functions.now false r.down.items) }
    ensures settled { IfOk result (AreSettledWords graph.now.graph) }
{
    let ForcedWords { up, down } = forced_words(alloc, graph.coded(), functions)?;
    settled_for(alloc, graph, up, down)
}

/// Where states settle, by words that say what is forced to 1 and to 0. It fails only where memory
/// runs out.
pub(crate) fn settled_for(
    alloc: Global,
    graph: &Proper,
    up: Vec<u128>,
    down: Vec<u128>,
) -> Result<SettledWords, NoMemory>
    requires up_size { length up.items ≡ graph.now.graph.states }
    requires down_size { length down.items ≡ graph.now.graph.states }
    ensures up { IfOk result (λ r. r.up.items ≡ up.items) }
    ensures down { IfOk result (λ r. r.down.items ≡ down.items) }
    ensures settled { IfOk result (AreSettledWords graph.now.graph) }
{
    let g = graph.coded().graph();
    let held = held_words(alloc, &up, &down)?;
    let passes = everywhere(alloc, 2 * g.signals().len() as u32)?;
    let ones = closures(alloc, g, &passes, &held, &up)?;
    let zeros = closures(alloc, g, &passes, &held, &down)?;
    Ok(SettledWords {
        up,
        down,
        ones,
        zeros,
    })
}

/// What one function forces, and where states settle for it: the words have its bit in place 0. It
/// fails only where memory runs out.
pub(crate) fn settled_alone(
    alloc: Global,
    graph: &Proper,
    function: Function,
) -> Result<SettledWords, NoMemory>
    requires { All (λ s. s < code_width) function.signals.items }
    ensures forced { IfOk result (λ r. (value : ℕ → Bool → Bool) → Computes function value
        → AreForced (forced_by value graph.now) graph.now.graph.states
        (column 0 r.up.items) (column 0 r.down.items)) }
    ensures settled { IfOk result (AreSettledWords graph.now.graph) }
{
    let mut functions = Vec::new(alloc);
    functions.push(function)?;
    settled_words(alloc, graph, &functions)
}

/// For each state those whose bit neither of its words has.
fn held_words(alloc: Global, up: &[u128], down: &[u128]) -> Result<Vec<u128>, NoMemory>
    requires { length down.now ≡ length up.now }
    ensures { IfOk result (λ held. AreHeldWords up.now down.now held.items) }
{
    let mut held = Vec::new(alloc);
    for s in 0..up.len() {
        held.push(!(up[s] | down[s]))?;
    }
    Ok(held)
}

/// Those whose bit just one of the two words of each state has.
fn those_with_targets(ones: &[u128], zeros: &[u128]) -> u128
    requires { length zeros.now ≡ length ones.now }
    ensures { (k : ℕ) → k < 128 → (bit result k ≡ true)
        ↔ AreOpposed (length ones.now) (column k ones.now) (column k zeros.now) }
{
    let mut all = u128::MAX;
    for s in 0..ones.len() {
        all &= ones[s] ^ zeros[s];
    }
    all
}

/// Those of the sets that have some state.
fn those_with_some(words: &[u128]) -> u128
    ensures { (k : ℕ) → (bit result k ≡ true) ↔ HasSome (column k words.now) }
{
    let mut found = 0;
    for word in words {
        found |= *word;
    }
    found
}
