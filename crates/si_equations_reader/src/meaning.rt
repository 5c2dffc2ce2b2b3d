//! What expressions are evaluated for, and what they come to.

ghost use Rattle.std.specs.Prelude.{◌≡◌, ◌∷◌, IfOk, reverse};
ghost use Rattle.si_genlib.specs.Expression.{value_of};
ghost use Rattle.si_equations.specs.Names.{named_value};
ghost use Rattle.si_equations_reader.specs.Loops.Values.{operations};
ghost use Rattle.si_equations_reader.specs.Steps.{last_of, before_last, after_step, tree_of};

use crate::names::bare;
use crate::step::Step;
use si_base::ids::{Code, NoMemory, Sig};
use si_base::limits::CODE_WIDTH;
use si_base::names::Names;
use si_words::lists::{has, place_of};
use std::alloc::Global;

/// What an expression is evaluated for.
#[derive(Clone, Copy)]
pub(crate) enum Meaning<'n> {
    /// Whether each of its names is one of these.
    Known(&'n Names),
    /// Its value, where the signals with these names have the bits of the code.
    Truth(&'n Names, Code),
}

/// The value of the name, where the names have the bits of the code.
fn named_value_of(names: &Names, values: Code, name: &[u8]) -> bool
    ensures { result ≡ named_value names.now values name.now }
{
    match place_of(names, name) {
        Some(place) => (place as usize) < CODE_WIDTH && values.get(Sig(place as u8)),
        None => false,
    }
}

impl Meaning<'_> {
    fn pin(&self, name: &[u8]) -> bool
        ensures { result ≡ (operations self.now).pin name.now }
    {
        match self {
            Meaning::Known(names) => has(names, bare(name)),
            Meaning::Truth(names, values) => named_value_of(names, *values, bare(name)),
        }
    }

    fn constant(&self, value: bool) -> bool
        ensures { result ≡ (operations self.now).constant value }
    {
        match self {
            Meaning::Known(_) => true,
            Meaning::Truth(_, _) => value,
        }
    }

    fn complement(&self, operand: bool) -> bool
        ensures { result ≡ (operations self.now).complement operand }
    {
        match self {
            Meaning::Known(_) => operand,
            Meaning::Truth(_, _) => !operand,
        }
    }

    fn both(&self, left: bool, right: bool) -> bool
        ensures { result ≡ (operations self.now).both left right }
    {
        match self {
            Meaning::Known(_) => left && right,
            Meaning::Truth(_, _) => left && right,
        }
    }

    fn either(&self, left: bool, right: bool) -> bool
        ensures { result ≡ (operations self.now).either left right }
    {
        match self {
            Meaning::Known(_) => left && right,
            Meaning::Truth(_, _) => left || right,
        }
    }

    /// Takes the last result.
    fn take(&self, results: &mut Vec<bool>) -> bool
        ensures value { result ≡ last_of (operations self.now) (reverse results.old.items) }
        ensures rest { reverse results.new.items ≡ before_last (reverse results.old.items) }
    {
        match results.pop() {
            Some(value) => value,
            None => self.constant(false),
        }
    }

    /// What a step comes to, whose operands it takes from the results.
    fn value_of(&self, results: &mut Vec<bool>, step: &Step<'_>) -> bool
        ensures { result ∷ reverse results.new.items
            ≡ after_step (operations self.now) (reverse results.old.items) step.now }
    {
        match *step {
            Step::Pin(name) => self.pin(name),
            Step::Constant(value) => self.constant(value),
            Step::Not => {
                let operand = self.take(results);
                self.complement(operand)
            }
            Step::And => {
                let right = self.take(results);
                let left = self.take(results);
                self.both(left, right)
            }
            Step::Or => {
                let right = self.take(results);
                let left = self.take(results);
                self.either(left, right)
            }
        }
    }
}

/// What the expression of these steps comes to.
pub(crate) fn evaluate(
    alloc: Global,
    meaning: &Meaning<'_>,
    steps: &[Step<'_>],
) -> Result<bool, NoMemory>
    ensures { IfOk result (λ v. v ≡ value_of (operations meaning.now) (tree_of steps.now)) }
{
    let mut results = Vec::new(alloc);
    for step in steps {
        let value = meaning.value_of(&mut results, step);
        results.push(value)?;
    }
    Ok(meaning.take(&mut results))
}
