//! Sets of states in words, to join many of them quickly.

use si_base::ids::{NoMemory, StateId};
use std::alloc::Global;

/// A set of states: bit `s % 64` of word `s / 64` is 1 for each state `s` that is in it.
#[derive(Drop)]
pub(crate) struct Flags {
    words: Vec<u64>,
}

/// How a set grows by another one.
#[derive(Clone, Copy)]
pub(crate) enum Growth {
    Union,
    Intersection,
    Difference,
}

impl Growth {
    /// The flags of 64 states in the grown set.
    fn word(self, one: u64, other: u64) -> u64 {
        match self {
            Growth::Union => one | other,
            Growth::Intersection => one & other,
            Growth::Difference => one & !other,
        }
    }
}

/// What two sets make.
#[derive(Clone, Copy)]
pub(crate) struct Grown<'a> {
    pub(crate) one: &'a Flags,
    pub(crate) growth: Growth,
    pub(crate) other: &'a Flags,
}

impl<'a> Grown<'a> {
    /// The flags of 64 states from that word on.
    fn word(self, k: usize) -> u64 {
        self.growth.word(self.one.word(k), self.other.word(k))
    }

    /// Whether the state is in it.
    pub(crate) fn has(self, s: StateId) -> bool {
        is_flagged(self.word(s.0 as usize / 64), s)
    }

    /// The set itself.
    pub(crate) fn set(self, alloc: Global) -> Result<Flags, NoMemory> {
        let mut words = Vec::new(alloc);
        for k in 0..self.one.words.len() {
            words.push(self.word(k))?;
        }
        Ok(Flags { words })
    }

    /// A number by which sets are told apart: of sets with one number the later ones are left out.
    /// A set and all other states, turned round, are one.
    pub(crate) fn mark(self, all: &Flags, turn: bool) -> u64 {
        let mut mark: u64 = 1;
        for k in 0..self.one.words.len() {
            let word = self.word(k);
            let turned = if turn { all.word(k) & !word } else { word };
            mark = mixed(mark ^ turned);
        }
        mark
    }
}

/// The number with its bits mixed.
fn mixed(number: u64) -> u64 {
    let next = (number ^ (number >> 32)).wrapping_mul(0x9E37_79B9_7F4A_7C15);
    (next ^ (next >> 29)).wrapping_mul(0xBF58_476D_1CE4_E5B9)
}

/// Whether the flag of the state is set in the word that has it.
fn is_flagged(word: u64, s: StateId) -> bool {
    word >> (s.0 % 64) & 1 == 1
}

impl Flags {
    /// No state, of so many.
    pub(crate) fn none(alloc: Global, states: u32) -> Result<Flags, NoMemory> {
        let words = vec![in alloc; 0; (states as usize + 63) / 64]?;
        Ok(Flags { words })
    }

    /// Puts a state in; a state past the last word is left out.
    pub(crate) fn put(&mut self, s: StateId) {
        let k = s.0 as usize / 64;
        if k < self.words.len() {
            self.words[k] |= 1 << (s.0 % 64);
        }
    }

    /// Whether the state is in it.
    pub(crate) fn has(&self, s: StateId) -> bool {
        is_flagged(self.word(s.0 as usize / 64), s)
    }

    /// The flags of 64 states from that word on.
    fn word(&self, k: usize) -> u64 {
        match self.words.get(k) {
            Some(word) => *word,
            None => 0,
        }
    }
}
