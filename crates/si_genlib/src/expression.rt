//! Expressions, read token by token into truth tables.

ghost use Rattle.std.specs.Prelude.{◌≡◌, [], ◌∷◌, MatchOption, reverse, None};
ghost use Rattle.si_genlib.specs.Expression as spec;
ghost use Rattle.si_genlib.specs.declared.symbol.Symbol.TheVariants as symbols;
ghost use Rattle.si_genlib.specs.Loops.Held.{state_now, Steps};
ghost use Rattle.si_genlib.specs.Loops.Tables.{tables};

use crate::limits::MAX_UNFINISHED;
use crate::symbol::{Operator, Symbol};
use si_base::fault::{LineFault, TextKind};
use std::alloc::Global;

/// What is read of an expression.
#[derive(Drop)]
pub(crate) struct Reading {
    /// The operand that stands last.
    pub(crate) operand: Option<u32>,
    /// The operators before it that aren't finished, the last last.
    pub(crate) unfinished: Vec<Operator<u32>>,
    /// Of the innermost parentheses the terms before the last `+`.
    pub(crate) terms: Option<u32>,
    /// The factors behind that.
    pub(crate) factors: Option<u32>,
}

fn is_complement(operator: &Operator<u32>) -> bool
    ensures { result ≡ spec.is_complement operator.now }
{
    match *operator {
        Operator::Complement => true,
        Operator::Paren { .. } => false,
    }
}

/// Whether a `!` stands last.
fn ends_in_complement(unfinished: &[Operator<u32>]) -> bool
    ensures { result ≡ spec.begins_complement (reverse unfinished.now) }
{
    match unfinished.last() {
        None => false,
        Some(last) => is_complement(last),
    }
}

/// Takes the operator that stands last.
fn pop(unfinished: &mut Vec<Operator<u32>>) -> Option<Operator<u32>>
    ensures { MatchOption result (reverse unfinished.old.items ≡ [])
        (λ last. reverse unfinished.old.items ≡ last ∷ reverse unfinished.new.items) }
{
    unfinished.pop()
}

/// Takes the `!` that stand last. Answers the complement of the operand for each.
fn take_complements(unfinished: &mut Vec<Operator<u32>>, operand: u32) -> u32
    ensures value { result
        ≡ spec.complemented (tables []) operand (reverse unfinished.old.items) }
    ensures rest { reverse unfinished.new.items ≡ spec.still (reverse unfinished.old.items) }
{
    let mut value = operand;
    while ends_in_complement(unfinished) {
        let _last = pop(unfinished);
        value = !value;
    }
    value
}

fn times(factors: Option<u32>, factor: u32) -> u32
    ensures { result ≡ spec.after (tables []).both factors factor }
{
    match factors {
        None => factor,
        Some(before) => before & factor,
    }
}

fn plus(terms: Option<u32>, term: u32) -> u32
    ensures { result ≡ spec.after (tables []).either terms term }
{
    match terms {
        None => term,
        Some(before) => before | term,
    }
}

impl Reading {
    /// Nothing is read yet.
    pub(crate) fn new(alloc: Global) -> Reading
        ensures { state_now result ≡ spec.start }
    {
        Reading {
            operand: None,
            unfinished: Vec::new(alloc),
            terms: None,
            factors: None,
        }
    }

    /// One more operator isn't finished.
    fn open(&mut self, operator: Operator<u32>) -> Result<Option<u32>, LineFault>
        ensures { Steps result (state_now self.new)
            (spec.opened (state_now self.old) (record {
              operand = None;
              unfinished = operator ∷ (state_now self.old).unfinished;
              terms = self.old.terms;
              factors = self.old.factors;
            })) }
    {
        if self.unfinished.len() >= MAX_UNFINISHED {
            return Err(LineFault::Kind(TextKind::TooDeep));
        }
        self.unfinished.push(operator)?;
        self.operand = None;
        Ok(None)
    }

    fn open_paren(&mut self) -> Result<Option<u32>, LineFault>
        ensures { Steps result (state_now self.new) (spec.due (state_now self.old) symbols.Open) }
    {
        let paren = Operator::Paren {
            terms: self.terms,
            factors: self.factors,
        };
        self.terms = None;
        self.factors = None;
        self.open(paren)
    }

    /// Where an operand is due.
    fn due(&mut self, symbol: Symbol<u32>) -> Result<Option<u32>, LineFault>
        ensures { Steps result (state_now self.new) (spec.due (state_now self.old) symbol) }
    {
        match symbol {
            Symbol::Leaf(value) => {
                self.operand = Some(value);
                Ok(None)
            }
            Symbol::Complement => self.open(Operator::Complement),
            Symbol::Open => self.open_paren(),
            Symbol::Prime => Err(LineFault::Kind(TextKind::BadExpression)),
            Symbol::Times => Err(LineFault::Kind(TextKind::BadExpression)),
            Symbol::Plus => Err(LineFault::Kind(TextKind::BadExpression)),
            Symbol::Close => Err(LineFault::Kind(TextKind::BadExpression)),
            Symbol::End => Err(LineFault::Kind(TextKind::BadExpression)),
            Symbol::Other => Err(LineFault::Kind(TextKind::BadExpression)),
        }
    }

    /// The factor that the operand ends stands with those before it.
    fn end_factor(&mut self, operand: u32)
        ensures { state_now self.new ≡ spec.next_factor (tables []) (state_now self.old) operand }
    {
        let factor = take_complements(&mut self.unfinished, operand);
        self.factors = Some(times(self.factors, factor));
        self.operand = None;
    }

    /// The terms, with that which the operand ends.
    fn all_terms(&mut self, operand: u32) -> u32
        ensures value { result ≡ spec.all_terms (tables []) (state_now self.old) operand }
        ensures rest { reverse self.new.unfinished.items
            ≡ spec.still (reverse self.old.unfinished.items) }
    {
        let factor = take_complements(&mut self.unfinished, operand);
        let term = times(self.factors, factor);
        plus(self.terms, term)
    }

    fn end_term(&mut self, operand: u32)
        ensures { state_now self.new ≡ spec.next_term (tables []) (state_now self.old) operand }
    {
        let all = self.all_terms(operand);
        self.terms = Some(all);
        self.factors = None;
        self.operand = None;
    }

    fn close(&mut self, operand: u32) -> Result<Option<u32>, LineFault>
        ensures { Steps result (state_now self.new)
            (spec.behind (tables []) (state_now self.old) operand symbols.Close) }
    {
        let all = self.all_terms(operand);
        match pop(&mut self.unfinished) {
            Some(Operator::Paren { terms, factors }) => {
                self.operand = Some(all);
                self.terms = terms;
                self.factors = factors;
                Ok(None)
            }
            Some(Operator::Complement) => Err(LineFault::Kind(TextKind::BadExpression)),
            None => Err(LineFault::Kind(TextKind::BadExpression)),
        }
    }

    fn end(&mut self, operand: u32) -> Result<Option<u32>, LineFault>
        ensures { Steps result (state_now self.new)
            (spec.behind (tables []) (state_now self.old) operand symbols.End) }
    {
        let all = self.all_terms(operand);
        match pop(&mut self.unfinished) {
            Some(_) => Err(LineFault::Kind(TextKind::BadExpression)),
            None => Ok(Some(all)),
        }
    }

    fn next_operand(&mut self, operand: u32, symbol: Symbol<u32>) -> Result<Option<u32>, LineFault>
        ensures { Steps result (state_now self.new)
            (spec.due (spec.next_factor (tables []) (state_now self.old) operand) symbol) }
    {
        self.end_factor(operand);
        self.due(symbol)
    }

    /// Behind an operand.
    fn behind(&mut self, operand: u32, symbol: Symbol<u32>) -> Result<Option<u32>, LineFault>
        ensures { Steps result (state_now self.new)
            (spec.behind (tables []) (state_now self.old) operand symbol) }
    {
        match symbol {
            Symbol::Prime => {
                self.operand = Some(!operand);
                Ok(None)
            }
            Symbol::Times => {
                self.end_factor(operand);
                Ok(None)
            }
            Symbol::Plus => {
                self.end_term(operand);
                Ok(None)
            }
            Symbol::Close => self.close(operand),
            Symbol::End => self.end(operand),
            Symbol::Leaf(_) => self.next_operand(operand, symbol),
            Symbol::Complement => self.next_operand(operand, symbol),
            Symbol::Open => self.next_operand(operand, symbol),
            Symbol::Other => self.next_operand(operand, symbol),
        }
    }

    /// Reads the next symbol. Answers the value of the expression, where the symbol ends it.
    #[tactic(auto, unfolding(crate::specs::Expression::step))]
    pub(crate) fn step(&mut self, symbol: Symbol<u32>) -> Result<Option<u32>, LineFault>
        ensures { Steps result (state_now self.new)
            (spec.step (tables []) (state_now self.old) symbol) }
    {
        match self.operand {
            None => self.due(symbol),
            Some(operand) => self.behind(operand, symbol),
        }
    }
}
