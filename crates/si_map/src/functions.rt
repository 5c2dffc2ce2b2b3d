//! The functions of divisors: those that were looked at, and those that come next.

ghost use Rattle.std.specs.Prelude.{◌≡◌, ℕ, ◌<◌, ◌≤◌, All, Bool, IfOk, OnOk, [], length};
ghost use Rattle.std.specs.Prelude.{slice_index_or};
ghost use Rattle.si_base.specs.Limits.{code_width};
ghost use Rattle.si_cell.specs.Library.{IsInstance};
ghost use Rattle.si_divisor.specs.declared.function.Function.{Function as FunctionValue};
ghost use Rattle.si_divisor.specs.Functions.{Computes};
ghost use Rattle.si_divisor.specs.Loops.ManyFunctions.{AreFunctionSets};
ghost use Rattle.si_divisor.specs.PartitionFor.{Answers};
ghost use Rattle.si_map.specs.Loops.Functions.{AreFunctions};

use arrayvec::ArrayVec;
use si_base::ids::NoMemory;
use si_cell::cell::Instance;
use si_cell::library::Library;
use si_checks::proper::Proper;
use si_closures::words::SETS;
use si_divisor::function::{Function, function_of};
use si_divisor::function_sets::FunctionSets;
use si_insert::partition::Partition;
use std::alloc::Global;
use std::collections::BTreeSet;

/// The functions of the divisors that were looked at, and the sets of states of functions that come
/// next: those for many take hardly more time than those for one.
#[derive(Drop)]
pub(crate) struct Functions {
    pub(crate) tried: BTreeSet<Function>,
    next: FunctionSets,
}

impl Functions {
    /// Before all divisors.
    pub(crate) fn new(alloc: Global) -> Functions
        ensures tried { result.tried.keys ≡ [] }
        ensures next { length result.next.functions.items ≡ 0 }
    {
        Functions {
            tried: BTreeSet::new(alloc),
            next: FunctionSets::none(alloc),
        }
    }

    /// The partition for the function; `None` exactly where there is none. Behind it come the
    /// others.
    pub(crate) fn partition(
        &mut self,
        alloc: Global,
        graph: &Proper,
        function: &Function,
        others: &[Function],
    ) -> Result<Option<Partition>, NoMemory>
        requires within { All (λ s. s < code_width) function.now.signals.items }
        requires others { All (λ f. All (λ s. s < code_width) f.signals.items) others.now }
        requires sets { AreFunctionSets graph.now self.old.next }
        ensures answer { IfOk result (λ found. (value : ℕ → Bool → Bool)
            → Computes function.now value → Answers graph.now value found) }
        ensures sets { OnOk result (AreFunctionSets graph.now self.new.next) }
        ensures same { self.new.tried ≡ self.old.tried }
    {
        let place = self.place(alloc, graph, function, others)?;
        let found = self.next.partition(alloc, graph, place)?;
        Ok(found)
    }

    /// Where the function stands among those that come next, which begin with it anew unless it is
    /// there.
    fn place(
        &mut self,
        alloc: Global,
        graph: &Proper,
        function: &Function,
        others: &[Function],
    ) -> Result<usize, NoMemory>
        requires within { All (λ s. s < code_width) function.now.signals.items }
        requires others { All (λ f. All (λ s. s < code_width) f.signals.items) others.now }
        requires sets { AreFunctionSets graph.now self.old.next }
        ensures inside { IfOk result (λ k. k < length self.new.next.functions.items) }
        ensures function { IfOk result (λ k. (d : FunctionValue)
            → slice_index_or self.new.next.functions.items k d ≡ function.now) }
        ensures sets { OnOk result (AreFunctionSets graph.now self.new.next) }
        ensures same { self.new.tried ≡ self.old.tried }
    {
        if let Some(place) = self.next.place_of(function) {
            return Ok(place);
        }
        let functions = next_functions(alloc, function, others, &self.tried)?;
        self.next = FunctionSets::make(alloc, graph, functions)?;
        Ok(0)
    }
}

/// The function and then, each once, those of the others that are not among the tried ones, as far
/// as a word has room for them.
fn next_functions(
    alloc: Global,
    function: &Function,
    others: &[Function],
    tried: &BTreeSet<Function>,
) -> Result<Vec<Function>, NoMemory>
    requires within { All (λ s. s < code_width) function.now.signals.items }
    requires others { All (λ f. All (λ s. s < code_width) f.signals.items) others.now }
    ensures some { IfOk result (λ next. 0 < length next.items) }
    ensures few { IfOk result (λ next. length next.items ≤ 128) }
    ensures within { IfOk result
        (λ next. All (λ f. All (λ s. s < code_width) f.signals.items) next.items) }
    ensures first { IfOk result
        (λ next. (d : FunctionValue) → slice_index_or next.items 0 d ≡ function.now) }
{
    let mut next = Vec::new(alloc);
    next.push(copy_of(function))?;
    for other in others {
        if next.len() == SETS {
            return Ok(next);
        }
        if !tried.contains(other) && !next.contains(other) {
            next.push(copy_of(other))?;
        }
    }
    Ok(next)
}

/// The functions of the divisors, at the same places. It fails only where memory runs out.
pub(crate) fn functions_of(
    alloc: Global,
    library: &Library,
    divisors: &[Instance],
) -> Result<Vec<Function>, NoMemory>
    requires { All (λ i. IsInstance library.now i) divisors.now }
    ensures { IfOk result (λ functions.
        AreFunctions library.now divisors.now (length divisors.now) functions.items) }
{
    let mut functions = Vec::new(alloc);
    for divisor in divisors {
        functions.push(function_of(library, divisor))?;
    }
    Ok(functions)
}

/// The same function again.
pub(crate) fn copy_of(function: &Function) -> Function
    ensures { result ≡ function.now }
{
    let mut signals = ArrayVec::new();
    for signal in function.signals.as_slice() {
        signals.push(*signal);
    }
    Function {
        signals,
        table: function.table,
    }
}
