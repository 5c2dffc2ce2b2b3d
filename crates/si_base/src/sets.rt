//! Sets of states.

ghost use Rattle.std.specs.Prelude.{◌≡◌, ℕ, ◌<◌, ◌≤◌, ◌*◌, ◌^◌, ◌↔◌, List, length, Bool, true};
ghost use Rattle.std.specs.Prelude.{false, IfOk, IsTrue, replicate, count_by, slice_index};
ghost use Rattle.std.specs.Prelude.{slice_index_or, slice_set, MatchOption, bit_or};
ghost use Rattle.si_base.specs.Sets.{IsSubset, IsUnion, IsDisjoint, IsFirstFrom, HasNoneFrom};
ghost use Rattle.si_base.specs.Sets.{AreFlags, AreWithin, AreApart, HasNoFlagFrom, IsFirstFlag};
ghost use Rattle.si_base.specs.Sets.{flags_of};

use crate::ids::{NoMemory, StateId};
use std::alloc::Global;
use std::marker::Model;

/// A set of states below its size. Contracts see it as a list that says of each state whether it is
/// in the set.
#[derive(Debug, Drop)]
pub struct StateSet {
    states: u32,
    /// The flags of 64 states each; a flag of no state is 0.
    words: Vec<u64>,
}

impl Model for StateSet {
    ghost use Rattle.std.specs.Prelude.{List, Bool};
    ghost use Rattle.si_base.specs.Sets.{AreFlags, flags_of};

    ghost Value = { List Bool };

    ghost view = { λ s. flags_of s.states s.words.items };

    ghost invariant = { λ s. AreFlags s.states s.words.items };
}

impl StateSet {
    /// The empty set of this size. It takes all the memory that the set will ever need.
    pub fn new(alloc: Global, states: u32) -> Result<StateSet, NoMemory>
        ensures { IfOk result (λ s. s ≡ replicate states false) }
    {
        let words = vec![in alloc; 0; (states as usize + 63) / 64]?;
        Ok(StateSet { states, words })
    }

    /// The set of the states whose flags are set: a word has the flags of 64 states, from its
    /// lowest bit up.
    pub fn from_words(states: u32, words: Vec<u64>) -> StateSet
        requires { AreFlags states words.items }
        ensures { result ≡ flags_of states words.items }
    {
        StateSet { states, words }
    }

    /// The flags of the states, in words of 64 each.
    pub fn words(&self) -> &[u64]
        ensures flags { AreFlags (length self.now) result.now }
        ensures told { self.now ≡ flags_of (length self.now) result.now }
    {
        self.words.as_slice()
    }

    /// The size: each state of the set is below it.
    pub fn size(&self) -> u32
        ensures { result ≡ length self.now }
    {
        self.states
    }

    /// Whether the state is in the set.
    pub fn has(&self, s: StateId) -> bool
        requires { s < length self.now }
        ensures { result ≡ slice_index_or self.now s false }
    {
        self.words[s.0 as usize / 64] >> (s.0 % 64) & 1 == 1
    }

    /// Puts the state into the set.
    pub fn add(&mut self, s: StateId)
        requires { s < length self.old }
        ensures { self.new ≡ slice_set self.old s true }
    {
        self.words[s.0 as usize / 64] |= 1 << (s.0 % 64);
    }

    /// Takes the state out of the set.
    pub fn remove(&mut self, s: StateId)
        requires { s < length self.old }
        ensures { self.new ≡ slice_set self.old s false }
    {
        self.words[s.0 as usize / 64] &= !(1 << (s.0 % 64));
    }

    /// Puts each state of the other set, which is of the same size, into this one.
    pub fn union_with(&mut self, other: &StateSet)
        requires { length self.old ≡ length other.now }
        ensures { IsUnion self.old other.now self.new }
    {
        unite(&mut self.words, &other.words);
    }

    /// Whether each state of the set is in the other one, which is of the same size.
    pub fn is_subset(&self, other: &StateSet) -> bool
        requires { length self.now ≡ length other.now }
        ensures { IsTrue result ↔ IsSubset self.now other.now }
    {
        are_within(&self.words, &other.words)
    }

    /// Whether no state is in both the set and the other one, which is of the same size.
    pub fn is_disjoint(&self, other: &StateSet) -> bool
        requires { length self.now ≡ length other.now }
        ensures { IsTrue result ↔ IsDisjoint self.now other.now }
    {
        are_apart(&self.words, &other.words)
    }

    /// The least state of the set at or past `s`, or `None` where there is none.
    pub fn first_from(&self, s: StateId) -> Option<StateId>
        requires { s ≤ length self.now }
        ensures { MatchOption result (HasNoneFrom self.now s) (λ t. IsFirstFrom self.now s t) }
    {
        match first_set(&self.words, s.0 as usize) {
            Some(t) => Some(StateId(t as u32)),
            None => None,
        }
    }

    /// How many states are in the set.
    pub fn count(&self) -> u32
        ensures { result ≡ count_by (λ b. b) self.now }
    {
        ones_in(&self.words) as u32
    }
}

/// Sets the flags that are set in the others.
fn unite(words: &mut [u64], more: &[u64])
    requires { length words.old ≡ length more.now }
    ensures size { length words.new ≡ length words.old }
    ensures each { (k : ℕ) → slice_index words.new k
        ≡ bit_or (slice_index words.old k) (slice_index more.now k) }
{
    for k in 0..more.len() {
        words[k] |= more[k];
    }
}

/// Whether each flag of the words is set in the others.
fn are_within(words: &[u64], others: &[u64]) -> bool
    requires { length words.now ≡ length others.now }
    ensures { IsTrue result ↔ AreWithin words.now others.now }
{
    for k in 0..others.len() {
        if words[k] | others[k] != others[k] {
            return false;
        }
    }
    true
}

/// Whether no flag is set both in the words and in the others.
fn are_apart(words: &[u64], others: &[u64]) -> bool
    requires { length words.now ≡ length others.now }
    ensures { IsTrue result ↔ AreApart words.now others.now }
{
    for k in 0..words.len() {
        if words[k] & others[k] != 0 {
            return false;
        }
    }
    true
}

/// The place of the first flag that is set at or past the place `from`.
fn first_set(words: &[u64], from: usize) -> Option<usize>
    requires few { length words.now < 2 ^ 32 }
    requires low { from < 2 ^ 32 }
    ensures { MatchOption result (HasNoFlagFrom words.now from)
        (λ t. IsFirstFlag words.now from t) }
{
    let mut at = from;
    while at / 64 < words.len() {
        let rest = words[at / 64] >> (at % 64);
        if rest != 0 {
            return Some(at + rest.trailing_zeros() as usize);
        }
        at = (at / 64 + 1) * 64;
    }
    None
}

/// How many flags are set.
fn ones_in(words: &[u64]) -> usize
    requires { length words.now < 2 ^ 32 }
    ensures { result ≡ count_by (λ b. b) (flags_of (64 * length words.now) words.now) }
{
    let mut total = 0;
    for word in words {
        total += word.count_ones() as usize;
    }
    total
}
