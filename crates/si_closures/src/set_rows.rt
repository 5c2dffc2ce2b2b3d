//! Sets of states as rows of flags, and the words of the states that these are when turned.

ghost use Rattle.std.specs.Prelude.{◌≡◌, ◌≢◌, ℕ, ◌+◌, ◌*◌, ◌/◌, ◌%◌, ◌^◌, ◌<◌, ◌≤◌, ◌⊎◌};
ghost use Rattle.std.specs.Prelude.{false, IfOk, length, replicate};
ghost use Rattle.si_base.specs.Bits.{bit};
ghost use Rattle.si_base.specs.Sets.{flag, AreFlags};
ghost use Rattle.si_closures.specs.Loops.Rows.{AreTurned};
ghost use Rattle.si_closures.specs.Loops.Rows.{flag_in, set_in};
ghost use Rattle.si_closures.specs.Loops.Turned.{cell, row};
ghost use Rattle.si_closures.specs.Loops.WordSearch.{column};

use crate::turned::turn;
use crate::words::SETS;
use si_base::ids::NoMemory;
use si_base::sets::StateSet;
use std::alloc::Global;
use std::marker::Model;

/// 128 sets of states of one graph, as rows of 128 flags each. The rows of the first 128 states
/// come first, one for each set, then those of the next 128 states.
#[derive(Drop)]
pub struct SetRows {
    states: u32,
    rows: Vec<u128>,
}

impl Model for SetRows {
    ghost use Rattle.si_closures.specs.Loops.Rows.{FlagRows, AreRows};

    ghost Value = { FlagRows };

    ghost view = { λ r. record { states = r.states; rows = r.rows.items } };

    ghost invariant = { λ r. AreRows r.states r.rows.items };
}

impl SetRows {
    /// No set has a state, of so many. It fails only where memory runs out.
    pub fn none(alloc: Global, states: u32) -> Result<SetRows, NoMemory>
        ensures states { IfOk result (λ r. r.states ≡ states) }
        ensures none { IfOk result (λ r. (k : ℕ) → k < 128
            → set_in r k ≡ replicate states false) }
    {
        let rows = vec![in alloc; 0; SETS * blocks_of(states as usize)]?;
        Ok(SetRows { states, rows })
    }

    /// The sets of words: bit k of a state's word says whether the set k has the state. It fails
    /// only where memory runs out.
    pub fn of_words(alloc: Global, states: u32, words: &[u128]) -> Result<SetRows, NoMemory>
        requires { length words.now ≡ states }
        ensures states { IfOk result (λ r. r.states ≡ states) }
        ensures sets { IfOk result (λ r. (k : ℕ) → k < 128 → set_in r k ≡ column k words.now) }
    {
        let mut rows = padded(alloc, words)?;
        turn_blocks(rows.as_mut_slice());
        Ok(SetRows { states, rows })
    }

    /// The words of the sets.
    pub fn into_words(self) -> Vec<u128>
        ensures size { length result.items ≡ self.states }
        ensures sets { (k : ℕ) → k < 128 → column k result.items ≡ set_in self k }
    {
        let SetRows { states, mut rows } = self;
        turn_blocks(rows.as_mut_slice());
        rows.truncate(states as usize);
        rows
    }

    /// Makes the set k that one.
    pub fn put(&mut self, k: usize, set: &StateSet)
        requires few { k < 128 }
        requires size { length set.now ≡ self.old.states }
        ensures states { self.new.states ≡ self.old.states }
        ensures there { set_in self.new k ≡ set.now }
        ensures others { (j : ℕ) → j < 128 → j ≢ k → set_in self.new j ≡ set_in self.old j }
    {
        put_row(self.rows.as_mut_slice(), k, set.words());
    }

    /// The set k. It fails only where memory runs out.
    pub fn set(&self, alloc: Global, k: usize) -> Result<StateSet, NoMemory>
        requires { k < 128 }
        ensures { IfOk result (λ set. set ≡ set_in self.now k) }
    {
        let count = (self.states as usize + 63) / 64;
        let mut words = vec![in alloc; 0; count]?;
        get_row(self.rows.as_slice(), k, words.as_mut_slice());
        Ok(StateSet::from_words(self.states, words))
    }
}

/// How many blocks of 128 so many states need.
fn blocks_of(states: usize) -> usize
    requires { states < 2 ^ 32 }
    ensures { result ≡ (states + 127) / 128 }
{
    (states + SETS - 1) / SETS
}

/// The words, and zeros up to a whole number of blocks.
fn padded(alloc: Global, words: &[u128]) -> Result<Vec<u128>, NoMemory>
    requires { length words.now < 2 ^ 32 }
    ensures size { IfOk result
        (λ rows. length rows.items ≡ 128 * ((length words.now + 127) / 128)) }
    ensures same { IfOk result (λ rows. (s : ℕ) → row rows.items s ≡ row words.now s) }
{
    let count = SETS * blocks_of(words.len());
    let mut rows = Vec::with_capacity(alloc, count)?;
    rows.extend_from_slice(words)?;
    for _ in words.len()..count {
        rows.push(0)?;
    }
    Ok(rows)
}

/// Turns each block.
fn turn_blocks(rows: &mut [u128])
    requires { length rows.old % 128 ≡ 0 }
    ensures { AreTurned rows.old rows.new }
{
    for b in 0..rows.len() / SETS {
        turn_block(rows, SETS * b);
    }
}

/// Turns the block whose first row is that.
fn turn_block(rows: &mut [u128], first: usize)
    requires { first + 128 ≤ length rows.old }
    ensures size { length rows.new ≡ length rows.old }
    ensures turned { (i j : ℕ) → i < 128 → j < 128
        → cell rows.new (first + i) j ≡ cell rows.old (first + j) i }
    ensures others { (k : ℕ) → (k < first) ⊎ (first + 128 ≤ k)
        → row rows.new k ≡ row rows.old k }
{
    let (_, rest) = rows.split_at_mut(first);
    let (block, _) = rest.split_at_mut(SETS);
    turn(block);
}

/// Gives the set k the flags of the words.
fn put_row(rows: &mut [u128], k: usize, words: &[u64])
    requires few { k < 128 }
    requires size { length rows.old ≡ 128 * ((length words.now + 1) / 2) }
    ensures size { length rows.new ≡ length rows.old }
    ensures there { (s : ℕ) → flag_in rows.new k s ≡ flag words.now s }
    ensures others { (j s : ℕ) → j < 128 → j ≢ k → flag_in rows.new j s ≡ flag_in rows.old j s }
{
    for b in 0..rows.len() / SETS {
        rows[SETS * b + k] = flags_at(words, b);
    }
}

/// The flags of the 128 states of a block.
fn flags_at(words: &[u64], b: usize) -> u128
    requires { 2 * b < length words.now }
    ensures { (i : ℕ) → i < 128 → bit result i ≡ flag words.now (128 * b + i) }
{
    let low = words[2 * b] as u128;
    if 2 * b + 1 == words.len() {
        return low;
    }
    low | (words[2 * b + 1] as u128) << 64
}

/// Makes the flags of the words those of the set k.
fn get_row(rows: &[u128], k: usize, words: &mut [u64])
    requires few { k < 128 }
    requires size { length rows.now ≡ 128 * ((length words.old + 1) / 2) }
    ensures size { length words.new ≡ length words.old }
    ensures flags { (s : ℕ) → s < 64 * length words.old → flag words.new s ≡ flag_in rows.now k s }
{
    for w in 0..words.len() {
        words[w] = half(rows[SETS * (w / 2) + k], w % 2);
    }
}

/// The lower half of the row, or the upper one.
fn half(row: u128, upper: usize) -> u64
    requires { upper < 2 }
    ensures { (i : ℕ) → i < 64 → bit result i ≡ bit row (64 * upper + i) }
{
    (row >> (64 * upper) & 0xffff_ffff_ffff_ffff) as u64
}
