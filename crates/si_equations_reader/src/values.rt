//! What equations that are read say.

ghost use Rattle.std.specs.Prelude.{◌≡◌, ◌<◌, IfOk, Some, length, map, slice_get};
ghost use Rattle.si_equations.specs.Equations as spec;
ghost use Rattle.si_equations_reader.specs.Read.{equations_now};
ghost use Rattle.si_equations_reader.specs.Steps.{tree_of};

use crate::equations::Equations;
use crate::meaning::{Meaning, evaluate};
use crate::progress::Equation;
use crate::step::Step;
use si_base::ids::{Code, NoMemory};
use si_base::names::Names;
use std::alloc::Global;

impl<'a> Equations<'a> {
    /// The names of the inputs, in the order of their list.
    pub fn inputs(&self) -> &Names
        ensures { result.now ≡ (equations_now self.now).inputs }
    {
        &self.read.inputs
    }

    /// The names of the outputs, in the order of their list.
    pub fn outputs(&self) -> &Names
        ensures { result.now ≡ (equations_now self.now).outputs }
    {
        &self.read.outputs
    }

    /// The names of all signals: inputs, outputs, and internal signals in the order of their
    /// equations.
    pub fn signals(&self) -> &Names
        ensures { result.now ≡ spec.signals (equations_now self.now) }
    {
        &self.read.signals
    }

    /// The number of equations.
    pub fn len(&self) -> usize
        ensures { result ≡ length (equations_now self.now).equations }
    {
        self.read.equations.len()
    }

    /// Equation `k`, from 0.
    fn at(&self, k: usize) -> &Equation<'a>
        requires { k < length (equations_now self.now).equations }
        ensures { slice_get self.now.read.equations.items k ≡ Some result.now }
    {
        &self.read.equations[k]
    }

    /// The line where equation `k` begins, from 1; the first equation has the number 0.
    pub fn line(&self, k: usize) -> u64
        requires { k < length (equations_now self.now).equations }
        ensures { slice_get (map (λ q. q.line) (equations_now self.now).equations) k
            ≡ Some result }
    {
        self.at(k).line
    }

    /// The signal that equation `k` is of.
    pub fn name(&self, k: usize) -> &[u8]
        requires { k < length (equations_now self.now).equations }
        ensures { slice_get (spec.driven (equations_now self.now)) k ≡ Some result.now }
    {
        self.at(k).name
    }

    /// The steps of the expression of equation `k`.
    pub fn steps(&self, k: usize) -> &[Step<'a>]
        requires { k < length (equations_now self.now).equations }
        ensures { slice_get (map (λ q. q.tree) (equations_now self.now).equations) k
            ≡ Some (tree_of result.now) }
    {
        &self.at(k).steps
    }

    /// The value of the expression of equation `k`, where the signals have the bits of `values`, in
    /// the order of [`signals`](Equations::signals). It fails only where memory runs out.
    pub fn value(&self, alloc: Global, k: usize, values: Code) -> Result<bool, NoMemory>
        requires { k < length (equations_now self.now).equations }
        ensures { IfOk result (λ value. slice_get
            (map (λ q. spec.expression_value (spec.signals (equations_now self.now)) values q.tree)
            (equations_now self.now).equations) k ≡ Some value) }
    {
        let equation = self.at(k);
        let meaning = Meaning::Truth(&self.read.signals, values);
        let value = evaluate(alloc, &meaning, &equation.steps)?;
        Ok(value)
    }
}
