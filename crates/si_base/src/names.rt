//! A list of distinct names, each with its place.

ghost use Rattle.std.specs.Prelude.{◌≡◌, ◌≢◌, ℕ, ◌+◌, ◌<◌, ◌≤◌, ◌^◌, List, [], ◌∷◌, ◌++◌, length};
ghost use Rattle.std.specs.Prelude.{IsTrue, IfOk, OnOk, OnErr, IsErrOf, ◌↔◌, Contains, slice_get};
ghost use Rattle.std.specs.Prelude.{Some, None, IfSome, IsNone, AllPairs};

use crate::ids::NoMemory;
use crate::text_key::TextKey;
use indexmap::IndexSet;
use std::alloc::{AllocError, AllocFailed, Global};
use std::marker::Model;
use thiserror::Error;

/// Why a name was not added.
#[derive(Clone, Copy, PartialEq, Eq, Debug, Drop, Error)]
pub enum AddFault {
    #[error("no memory")]
    NoMemory,
    #[error("the list is full")]
    Full,
}

impl From<AllocError> for AddFault {
    ghost use Rattle.std.specs.Prelude.{◌≡◌};
    ghost use Rattle.si_base.specs.declared.names.AddFault.TheVariants.{NoMemory};

    ghost from_gives = { λ _ e. e ≡ NoMemory };

    fn from(_e: AllocError) -> AddFault {
        AddFault::NoMemory
    }
}

impl<T: Drop> From<AllocFailed<T>> for AddFault {
    ghost use Rattle.std.specs.Prelude.{◌≡◌};
    ghost use Rattle.si_base.specs.declared.names.AddFault.TheVariants.{NoMemory};

    ghost from_gives = { λ _ e. e ≡ NoMemory };

    fn from(_e: AllocFailed<T>) -> AddFault {
        AddFault::NoMemory
    }
}

/// Distinct names in the order in which they were added.
#[derive(Drop)]
pub struct Names {
    alloc: Global,
    set: IndexSet<Vec<u8>, TextKey>,
}

impl Model for Names {
    ghost use Rattle.std.specs.Prelude.{List, ℕ, ◌≤◌, ◌<◌, ◌^◌, map, length, vec_items};

    ghost Value = { List (List ℕ) };

    ghost view = { λ n. map vec_items n.set.keys };

    ghost invariant = { λ n. length n.set.keys < 2 ^ 32 };
}

impl Names {
    /// An empty list, for a few names. It fails only where memory runs out.
    pub fn new(alloc: Global) -> Result<Names, NoMemory>
        ensures { IfOk result (λ n. n ≡ []) }
    {
        Ok(Names::with_key(alloc, TextKey::of(b"")))
    }

    /// An empty list for the names of a text, of which this is the key.
    ///
    /// A list that may grow long is made so; else one who writes the text may choose its names so
    /// that each search is long.
    pub fn with_key(alloc: Global, key: TextKey) -> Names
        ensures { result ≡ [] }
    {
        Names {
            alloc,
            set: IndexSet::with_hasher(alloc, key),
        }
    }

    /// An empty list for names of the same text.
    pub fn empty_like(&self) -> Names
        ensures { result ≡ [] }
    {
        Names::with_key(self.alloc, *self.set.hasher())
    }

    /// The number of names.
    pub fn len(&self) -> u32
        ensures len { result ≡ length self.now }
        ensures distinct { AllPairs (λ x y. x ≢ y) self.now }
    {
        self.set.len() as u32
    }

    /// Whether there is no name.
    pub fn is_empty(&self) -> bool
        ensures { IsTrue result ↔ (length self.now ≡ 0) }
    {
        self.set.len() == 0
    }

    /// The bytes of the name at place `k`, from 0.
    pub fn get(&self, k: u32) -> &[u8]
        requires { k < length self.now }
        ensures { slice_get self.now k ≡ Some result.now }
    {
        self.set.as_slice()[k as usize].as_slice()
    }

    /// Whether the name stands at place `k`.
    pub fn is_at(&self, k: u32, name: &[u8]) -> bool
        ensures at { IsTrue result ↔ (slice_get self.now k ≡ Some name.now) }
        ensures distinct { AllPairs (λ x y. x ≢ y) self.now }
    {
        k < self.len() && self.get(k) == name
    }

    /// The place of a name, or `None` where it isn't there. It is the only place of the name.
    pub fn place(&self, name: &[u8]) -> Option<u32>
        ensures found { IfSome result (λ k. slice_get self.now k ≡ Some name.now) }
        ensures absent { IsNone result ↔ ¬ Contains self.now name.now }
        ensures distinct { AllPairs (λ x y. x ≢ y) self.now }
    {
        if self.len() == 0 {
            return None;
        }
        match self.set.get_index_of(name) {
            Some(k) => Some(k as u32),
            None => None,
        }
    }

    /// The place of a name, which goes last if it is new.
    ///
    /// `Full` comes exactly where the name is new and at least `limit` names are there. After a
    /// refusal the list is as before.
    pub fn add(&mut self, name: &[u8], limit: u32) -> Result<u32, AddFault>
        ensures placed { IfOk result (λ k. slice_get self.new k ≡ Some name.now) }
        ensures present { OnOk result (Contains self.old name.now → self.new ≡ self.old) }
        ensures new { OnOk result (¬ Contains self.old name.now
            → self.new ≡ self.old ++ name.now ∷ []) }
        ensures full { IsErrOf result AddFault.Full
            ↔ ((¬ Contains self.old name.now) × (limit ≤ length self.old)) }
        ensures err { OnErr result (self.new ≡ self.old) }
        ensures distinct { AllPairs (λ x y. x ≢ y) self.new }
    {
        if let Some(k) = self.place(name) {
            return Ok(k);
        }
        let k = self.len();
        if k >= limit {
            return Err(AddFault::Full);
        }
        let owned = Vec::from_slice(self.alloc, name)?;
        self.set.insert(owned)?;
        Ok(k)
    }
}
