//! Expressions, read token by token.

ghost use Rattle.std.specs.Prelude.{◌≡◌, [], ◌∷◌, List, MatchOption, OnOk, false, true, reverse};
ghost use Rattle.std.specs.Option.{is_some};
ghost use Rattle.si_genlib.specs.Expression as spec;
ghost use Rattle.si_genlib.specs.Expression.{Tree, trees};
ghost use Rattle.si_genlib.specs.declared.symbol.Symbol.TheVariants as symbols;
ghost use Rattle.si_equations_reader.specs.Loops.Machine.{before, behind_now, operators_now, standing};
ghost use Rattle.si_equations_reader.specs.Loops.Machine.{state_now, state_of, Steps, symbol_now};
ghost use Rattle.si_equations_reader.specs.Loops.Machine.{trees_before, trees_now};
ghost use Rattle.si_equations_reader.specs.Steps.{after_step, tree_of};

use crate::step::Step;
use crate::symbol::Symbol;
use si_base::fault::{LineFault, TextKind};
use si_base::ids::NoMemory;
use si_genlib::limits::MAX_UNFINISHED;
use std::alloc::Global;

/// An operator whose operand isn't finished.
#[derive(Clone, Copy)]
pub(crate) enum Operator {
    /// `!`
    Complement,
    /// An opening parenthesis, and whether terms and factors stand before it.
    Paren { terms: bool, factors: bool },
}

/// What is read of an expression.
#[derive(Drop)]
pub struct Reading<'a> {
    /// The steps of all that is read. Their last result is the operand, if one stands last; before
    /// it come those of the factors and the terms that stand, and so on for each parenthesis.
    pub(crate) steps: Vec<Step<'a>>,
    /// Whether an operand stands last.
    pub(crate) operand: bool,
    /// The operators before it that aren't finished, the last last.
    pub(crate) unfinished: Vec<Operator>,
    /// Whether, of the innermost parentheses, terms stand before the last `+`.
    pub(crate) terms: bool,
    /// Whether factors stand behind that.
    pub(crate) factors: bool,
}

/// Whether a `!` stands last.
fn ends_in_complement(unfinished: &[Operator]) -> bool
    ensures { result ≡ spec.begins_complement (operators_now [] (reverse unfinished.now)) }
{
    match unfinished.last() {
        Some(Operator::Complement) => true,
        Some(Operator::Paren { .. }) => false,
        None => false,
    }
}

/// Takes the operator that stands last.
fn pop(unfinished: &mut Vec<Operator>) -> Option<Operator>
    ensures { MatchOption result (reverse unfinished.old.items ≡ [])
        (λ last. reverse unfinished.old.items ≡ last ∷ reverse unfinished.new.items) }
{
    unfinished.pop()
}

/// Adds a step, which takes its operands from the results of those before it.
fn emit<'a>(steps: &mut Vec<Step<'a>>, step: Step<'a>) -> Result<(), NoMemory>
    ensures { OnOk result
        (trees_now steps.new.items ≡ after_step trees (trees_now steps.old.items) step.entry) }
{
    steps.push(step)?;
    Ok(())
}

/// Takes the `!` that stand last, and the complement of the last result for each.
fn take_complements<'a>(
    steps: &mut Vec<Step<'a>>,
    unfinished: &mut Vec<Operator>,
) -> Result<(), NoMemory>
    ensures last { OnOk result ((ts : List Tree) → tree_of steps.new.items
        ≡ spec.complemented trees (tree_of steps.old.items)
        (operators_now ts (reverse unfinished.old.items))) }
    ensures before { OnOk result (trees_before steps.new.items ≡ trees_before steps.old.items) }
    ensures rest { OnOk result ((ts : List Tree) → operators_now ts (reverse unfinished.new.items)
        ≡ spec.still (operators_now ts (reverse unfinished.old.items))) }
{
    while ends_in_complement(unfinished) {
        let _last = pop(unfinished);
        emit(steps, Step::Not)?;
    }
    Ok(())
}

/// Joins the last result to the factors, if any stand before it.
fn times<'a>(steps: &mut Vec<Step<'a>>, factors: bool) -> Result<(), NoMemory>
    ensures last { OnOk result (tree_of steps.new.items ≡ spec.after trees.both
        (standing factors (trees_before steps.old.items)) (tree_of steps.old.items)) }
    ensures before { OnOk result
        (trees_before steps.new.items ≡ before factors (trees_before steps.old.items)) }
{
    if !factors {
        return Ok(());
    }
    emit(steps, Step::And)?;
    Ok(())
}

/// Joins the last result to the terms, if any stand before it.
fn plus<'a>(steps: &mut Vec<Step<'a>>, terms: bool) -> Result<(), NoMemory>
    ensures last { OnOk result (tree_of steps.new.items ≡ spec.after trees.either
        (standing terms (trees_before steps.old.items)) (tree_of steps.old.items)) }
    ensures before { OnOk result
        (trees_before steps.new.items ≡ before terms (trees_before steps.old.items)) }
{
    if !terms {
        return Ok(());
    }
    emit(steps, Step::Or)?;
    Ok(())
}

impl<'a> Reading<'a> {
    /// Nothing is read yet.
    pub fn new(alloc: Global) -> Reading<'a>
        ensures { state_now result ≡ spec.start }
    {
        Reading {
            steps: Vec::new(alloc),
            operand: false,
            unfinished: Vec::new(alloc),
            terms: false,
            factors: false,
        }
    }

    /// One more operator isn't finished.
    fn open(&mut self, operator: Operator) -> Result<bool, LineFault>
        requires { self.old.operand ≡ false }
        ensures { Steps result self.new (spec.opened (state_now self.old)
            (state_of false self.old.terms self.old.factors
            (operator ∷ reverse self.old.unfinished.items) (trees_now self.old.steps.items))) }
    {
        if self.unfinished.len() >= MAX_UNFINISHED {
            return Err(LineFault::Kind(TextKind::TooDeep));
        }
        self.unfinished.push(operator)?;
        Ok(false)
    }

    fn open_paren(&mut self) -> Result<bool, LineFault>
        requires { self.old.operand ≡ false }
        ensures { Steps result self.new (spec.due (state_now self.old) symbols.Open) }
    {
        let paren = Operator::Paren {
            terms: self.terms,
            factors: self.factors,
        };
        self.terms = false;
        self.factors = false;
        self.open(paren)
    }

    /// An operand of one step.
    fn leaf(&mut self, leaf: Step<'a>) -> Result<bool, LineFault>
        ensures { Steps result self.new (spec.Goes (state_of true self.old.terms self.old.factors
            (reverse self.old.unfinished.items)
            (after_step trees (trees_now self.old.steps.items) leaf.entry))) }
    {
        emit(&mut self.steps, leaf)?;
        self.operand = true;
        Ok(false)
    }

    /// Where an operand is due.
    fn due(&mut self, symbol: Symbol<'a>) -> Result<bool, LineFault>
        requires { self.old.operand ≡ false }
        ensures { Steps result self.new (spec.due (state_now self.old) (symbol_now symbol.entry)) }
    {
        match symbol {
            Symbol::Pin(name) => self.leaf(Step::Pin(name)),
            Symbol::Constant(value) => self.leaf(Step::Constant(value)),
            Symbol::Complement => self.open(Operator::Complement),
            Symbol::Open => self.open_paren(),
            Symbol::Prime => Err(LineFault::Kind(TextKind::BadExpression)),
            Symbol::Times => Err(LineFault::Kind(TextKind::BadExpression)),
            Symbol::Plus => Err(LineFault::Kind(TextKind::BadExpression)),
            Symbol::Close => Err(LineFault::Kind(TextKind::BadExpression)),
            Symbol::End => Err(LineFault::Kind(TextKind::BadExpression)),
            Symbol::Other => Err(LineFault::Kind(TextKind::BadExpression)),
        }
    }

    /// The factor that the operand ends is joined to those before it.
    fn all_factors(&mut self) -> Result<(), NoMemory>
        ensures last { OnOk result (tree_of self.new.steps.items
            ≡ spec.term trees (behind_now self.old) (tree_of self.old.steps.items)) }
        ensures before { OnOk result (trees_before self.new.steps.items
            ≡ before self.old.factors (trees_before self.old.steps.items)) }
        ensures rest { OnOk result ((ts : List Tree) →
            operators_now ts (reverse self.new.unfinished.items)
            ≡ spec.still (operators_now ts (reverse self.old.unfinished.items))) }
        ensures operand { self.new.operand ≡ self.old.operand }
        ensures terms { self.new.terms ≡ self.old.terms }
    {
        take_complements(&mut self.steps, &mut self.unfinished)?;
        times(&mut self.steps, self.factors)?;
        Ok(())
    }

    /// The term that the operand ends is joined to those before it.
    fn all_terms(&mut self) -> Result<(), NoMemory>
        ensures last { OnOk result (tree_of self.new.steps.items
            ≡ spec.all_terms trees (behind_now self.old) (tree_of self.old.steps.items)) }
        ensures before { OnOk result (trees_before self.new.steps.items
            ≡ before self.old.terms (before self.old.factors (trees_before self.old.steps.items))) }
        ensures rest { OnOk result ((ts : List Tree) →
            operators_now ts (reverse self.new.unfinished.items)
            ≡ spec.still (operators_now ts (reverse self.old.unfinished.items))) }
        ensures operand { self.new.operand ≡ self.old.operand }
    {
        self.all_factors()?;
        plus(&mut self.steps, self.terms)?;
        Ok(())
    }

    fn end_factor(&mut self) -> Result<(), NoMemory>
        ensures next { OnOk result (state_now self.new
            ≡ spec.next_factor trees (behind_now self.old) (tree_of self.old.steps.items)) }
        ensures due { OnOk result (self.new.operand ≡ false) }
    {
        self.all_factors()?;
        self.factors = true;
        self.operand = false;
        Ok(())
    }

    fn end_term(&mut self) -> Result<(), NoMemory>
        ensures { OnOk result (state_now self.new
            ≡ spec.next_term trees (behind_now self.old) (tree_of self.old.steps.items)) }
    {
        self.all_terms()?;
        self.terms = true;
        self.factors = false;
        self.operand = false;
        Ok(())
    }

    fn close(&mut self) -> Result<bool, LineFault>
        requires { self.old.operand ≡ true }
        ensures { Steps result self.new (spec.behind trees (behind_now self.old)
            (tree_of self.old.steps.items) symbols.Close) }
    {
        self.all_terms()?;
        match pop(&mut self.unfinished) {
            Some(Operator::Paren { terms, factors }) => {
                self.terms = terms;
                self.factors = factors;
                Ok(false)
            }
            Some(Operator::Complement) => Err(LineFault::Kind(TextKind::BadExpression)),
            None => Err(LineFault::Kind(TextKind::BadExpression)),
        }
    }

    fn end(&mut self) -> Result<bool, LineFault>
        ensures { Steps result self.new (spec.behind trees (behind_now self.old)
            (tree_of self.old.steps.items) symbols.End) }
    {
        self.all_terms()?;
        match pop(&mut self.unfinished) {
            Some(_) => Err(LineFault::Kind(TextKind::BadExpression)),
            None => Ok(true),
        }
    }

    fn next_operand(&mut self, symbol: Symbol<'a>) -> Result<bool, LineFault>
        ensures { Steps result self.new (spec.due
            (spec.next_factor trees (behind_now self.old) (tree_of self.old.steps.items))
            (symbol_now symbol.entry)) }
    {
        self.end_factor()?;
        self.due(symbol)
    }

    /// Behind an operand.
    fn behind(&mut self, symbol: Symbol<'a>) -> Result<bool, LineFault>
        requires { self.old.operand ≡ true }
        ensures { Steps result self.new (spec.behind trees (behind_now self.old)
            (tree_of self.old.steps.items) (symbol_now symbol.entry)) }
    {
        match symbol {
            Symbol::Prime => {
                emit(&mut self.steps, Step::Not)?;
                Ok(false)
            }
            Symbol::Times => {
                self.end_factor()?;
                Ok(false)
            }
            Symbol::Plus => {
                self.end_term()?;
                Ok(false)
            }
            Symbol::Close => self.close(),
            Symbol::End => self.end(),
            Symbol::Pin(_) => self.next_operand(symbol),
            Symbol::Constant(_) => self.next_operand(symbol),
            Symbol::Complement => self.next_operand(symbol),
            Symbol::Open => self.next_operand(symbol),
            Symbol::Other => self.next_operand(symbol),
        }
    }

    /// Whether an operand stands last.
    pub fn has_operand(&self) -> bool
        ensures { result ≡ is_some (state_now self.now).operand }
    {
        self.operand
    }

    /// The steps of all that is read.
    pub fn into_steps(self) -> Vec<Step<'a>>
        ensures { result ≡ self.entry.steps }
    {
        self.steps
    }

    /// Reads the next symbol. Answers whether it ends the expression.
    ///
    /// # Errors
    ///
    /// `BadExpression` where the symbol can't stand there, `TooDeep` where it is one operator too
    /// many whose operand isn't finished, and `NoMemory` only where memory runs out.
    #[tactic(auto, unfolding(si_genlib::specs::Expression::step))]
    pub fn step(&mut self, symbol: Symbol<'a>) -> Result<bool, LineFault>
        ensures { Steps result self.new
            (spec.step trees (state_now self.old) (symbol_now symbol.entry)) }
    {
        if self.operand {
            self.behind(symbol)
        } else {
            self.due(symbol)
        }
    }
}
