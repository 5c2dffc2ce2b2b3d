//! Columns: a value for each state of a graph, 64 to a word.

ghost use Rattle.std.specs.Prelude.{◌≡◌, ℕ, ◌/◌, ◌<◌, ◌^◌, ◌-◌, ◌&&◌, ◌||◌, IfOk, length};
ghost use Rattle.std.specs.Prelude.{replicate};
ghost use Rattle.std.specs.Prelude.{true, slice_index, bit_and, bit_or, bit_xor};
ghost use Rattle.std.specs.Prelude.{if◌then◌else◌};
ghost use Rattle.si_base.specs.Sets.{flag};
ghost use Rattle.si_audit.specs.Loops.Columns.{is_value, words_for};

use si_base::ids::{NoMemory, StateId};
use std::alloc::Global;
use std::marker::Model;

/// A value for each state of a graph. Contracts see it as its words, which hold 64 values each,
/// from the lowest bit up.
#[derive(Drop)]
pub(crate) struct Column {
    words: Vec<u64>,
}

impl Model for Column {
    ghost use Rattle.std.specs.Prelude.{ℕ, List};

    ghost Value = { List ℕ };

    ghost view = { λ c. c.words.items };
}

impl Column {
    /// The column of so many states with the value 0 for each.
    pub(crate) fn new(alloc: Global, states: u32) -> Result<Column, NoMemory>
        ensures { IfOk result (λ c. c ≡ replicate (words_for states) 0) }
    {
        let words = vec![in alloc; 0; (states as usize + 63) / 64]?;
        Ok(Column { words })
    }

    /// The value of the state.
    pub(crate) fn get(&self, s: StateId) -> bool
        requires { s / 64 < length self.now }
        ensures { result ≡ flag self.now s }
    {
        self.words[s.0 as usize / 64] >> (s.0 % 64) & 1 == 1
    }

    /// Gives the state the value 1.
    pub(crate) fn raise(&mut self, s: StateId)
        requires { s / 64 < length self.old }
        ensures size { length self.new ≡ length self.old }
        ensures there { flag self.new s ≡ true }
        ensures others { (t : ℕ) → (t ≡ s → ⊥) → flag self.new t ≡ flag self.old t }
    {
        self.words[s.0 as usize / 64] |= 1 << (s.0 % 64);
    }

    /// Gives each state the value 1.
    pub(crate) fn raise_all(&mut self)
        ensures size { length self.new ≡ length self.old }
        ensures each { (s : ℕ) → s / 64 < length self.old → flag self.new s ≡ true }
    {
        fill(&mut self.words);
    }

    /// Leaves the value 1 only where the other column, of as many words, has the value `v`.
    pub(crate) fn keep_where(&mut self, other: &Column, v: bool)
        requires { length self.old ≡ length other.now }
        ensures size { length self.new ≡ length self.old }
        ensures each { (s : ℕ) → s / 64 < length self.old → flag self.new s
            ≡ (flag self.old s && is_value v (flag other.now s)) }
    {
        narrow(&mut self.words, &other.words, turned_unless(v));
    }

    /// Gives the value 1 where the other column, of as many words, has it.
    pub(crate) fn unite(&mut self, other: &Column)
        requires { length self.old ≡ length other.now }
        ensures size { length self.new ≡ length self.old }
        ensures each { (s : ℕ) → flag self.new s ≡ (flag self.old s || flag other.now s) }
    {
        join(&mut self.words, &other.words);
    }
}

/// The bits to be turned where bits of the value `v` are to be 1: none or all.
fn turned_unless(v: bool) -> u64
    ensures { result ≡ (if v then 0 else 2 ^ 64 - 1) }
{
    if v { 0 } else { u64::MAX }
}

/// Sets each bit.
fn fill(words: &mut [u64])
    ensures size { length words.new ≡ length words.old }
    ensures each { (k : ℕ) → k < length words.old → slice_index words.new k ≡ 2 ^ 64 - 1 }
{
    for k in 0..words.len() {
        words[k] = u64::MAX;
    }
}

/// Leaves the bits that are set in the others too, after these are turned where `turned` is set.
fn narrow(words: &mut [u64], others: &[u64], turned: u64)
    requires { length words.old ≡ length others.now }
    ensures size { length words.new ≡ length words.old }
    ensures each { (k : ℕ) → k < length words.old → slice_index words.new k
        ≡ bit_and (slice_index words.old k) (bit_xor (slice_index others.now k) turned) }
{
    for k in 0..others.len() {
        words[k] &= others[k] ^ turned;
    }
}

/// Sets the bits that are set in the others.
fn join(words: &mut [u64], others: &[u64])
    requires { length words.old ≡ length others.now }
    ensures size { length words.new ≡ length words.old }
    ensures each { (k : ℕ) → slice_index words.new k
        ≡ bit_or (slice_index words.old k) (slice_index others.now k) }
{
    for k in 0..others.len() {
        words[k] |= others[k];
    }
}
