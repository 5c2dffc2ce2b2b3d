//! What is read of a text of equations.

ghost use Rattle.std.specs.Prelude.{◌≡◌, ◌++◌, [], IfOk, OnOk, None, map};
ghost use Rattle.si_base.specs.Faults.{first_after};
ghost use Rattle.si_base.specs.Limits.{max_signals};
ghost use Rattle.si_equations.specs.Equations.{driven, equation_fault, with_equation};
ghost use Rattle.si_equations.specs.Equations as spec;
ghost use Rattle.si_words.specs.Names.{name_fault, stands_in};
ghost use Rattle.si_equations_reader.specs.Held.{AreCounted, progress_now, equation_now};
ghost use Rattle.si_equations_reader.specs.Loops.Statements.{only_lists};
ghost use Rattle.si_equations_reader.specs.Steps.{tree_of};

use crate::lists::signals_of;
use crate::names::push;
use crate::step::Step;
use si_base::fault::TextKind;
use si_base::ids::NoMemory;
use si_base::limits::MAX_SIGNALS;
use si_base::names::Names;
use si_words::lists::has;
use si_words::words::is_signal_name;
use std::alloc::Global;

/// An equation.
#[derive(Drop)]
pub(crate) struct Equation<'a> {
    /// The line where it begins.
    pub(crate) line: u64,
    /// The signal that it is of.
    pub(crate) name: &'a [u8],
    /// The steps of its expression.
    pub(crate) steps: Vec<Step<'a>>,
}

/// The lists, and the equations so far.
#[derive(Drop)]
pub struct Progress<'a> {
    pub(crate) inputs: Names,
    pub(crate) outputs: Names,
    /// All signals, in signal order.
    pub(crate) signals: Names,
    pub(crate) equations: Vec<Equation<'a>>,
}

/// Whether one of these equations is of this signal.
pub(crate) fn is_driven(equations: &[Equation<'_>], name: &[u8]) -> bool
    ensures { result ≡ stands_in (map (λ q. q.name) (map equation_now equations.now)) name.now }
{
    equations.iter().any(|q| name == q.name)
}

impl<'a> Progress<'a> {
    /// Two lists without fault, and no equation yet.
    pub fn of_lists(alloc: Global, inputs: Names, outputs: Names) -> Result<Progress<'a>, NoMemory>
        requires { first_after (name_fault max_signals) [] (inputs ++ outputs) ≡ None }
        ensures lists { IfOk result (λ p. progress_now p ≡ only_lists inputs outputs) }
        ensures counted { IfOk result AreCounted }
    {
        let signals = signals_of(&inputs, &outputs)?;
        Ok(Progress {
            inputs,
            outputs,
            signals,
            equations: Vec::new(alloc),
        })
    }

    /// The fault of the name of the next equation.
    pub fn equation_kind(&self, name: &[u8]) -> Option<TextKind>
        requires { AreCounted self.now }
        ensures { result ≡ equation_fault (progress_now self.now).inputs
            (progress_now self.now).outputs (driven (progress_now self.now)) name.now }
    {
        if !is_signal_name(name) {
            Some(TextKind::BadName)
        } else if has(&self.inputs, name) || is_driven(&self.equations, name) {
            Some(TextKind::Repeated)
        } else if !has(&self.outputs, name) && self.signals.len() as usize >= MAX_SIGNALS {
            Some(TextKind::TooManySignals)
        } else {
            None
        }
    }

    /// Adds an equation whose name has no fault. It fails only where memory runs out.
    pub fn add(&mut self, line: u64, name: &'a [u8], steps: Vec<Step<'a>>) -> Result<(), NoMemory>
        requires counted { AreCounted self.old }
        requires fine { equation_fault (progress_now self.old).inputs
            (progress_now self.old).outputs (driven (progress_now self.old)) name.now ≡ None }
        ensures added { OnOk result (progress_now self.new ≡ with_equation (progress_now self.old)
            line name.now (tree_of steps.entry.items)) }
        ensures counted { OnOk result (AreCounted self.new) }
    {
        if !has(&self.outputs, name) {
            push(&mut self.signals, name)?;
        }
        self.equations.push(Equation { line, name, steps })?;
        Ok(())
    }

    /// Whether each output has an equation.
    pub(crate) fn has_all_outputs(&self) -> bool
        ensures { result ≡ spec.has_all_outputs (progress_now self.now) }
    {
        let count = self.outputs.len();
        for k in 0..count {
            if !is_driven(&self.equations, self.outputs.get(k)) {
                return false;
            }
        }
        true
    }
}
