//! Numbers that are tied to each other, in classes.

ghost use Rattle.std.specs.Prelude.{◌≡◌, ◌≢◌, ◌<◌, ◌≤◌, ℕ, IfOk, Some, None, length, slice_index, slice_set};
ghost use Rattle.si_same.specs.Loops.Forest.{IsForest, class_of, classes_of, parent_at};
ghost use Rattle.si_same.specs.Loops.Classes.{Joins};

use si_base::ids::NoMemory;
use std::alloc::Global;
use std::marker::Model;

/// The numbers below a count, in classes, each of which is a tree: its root stands for it.
///
/// The root of the lower tree gets the other as its parent, so that no tree is higher than the
/// logarithm of its size.
#[derive(Drop)]
pub(crate) struct Ties {
    /// For each number its parent; `None` at a root.
    parents: Vec<Option<u32>>,
    /// For each root no less than the height of its tree.
    ranks: Vec<u32>,
}

impl Model for Ties {
    ghost use Rattle.std.specs.Prelude.{ℕ, List, Option};
    ghost use Rattle.si_same.specs.Loops.Forest.{IsForest};

    ghost Value = { List (Option ℕ) };

    ghost view = { λ t. t.parents.items };

    ghost invariant = { λ t. IsForest t.parents.items t.ranks.items };
}

impl Ties {
    /// The numbers below the count, each in a class of its own. It fails only where memory runs
    /// out.
    pub(crate) fn none(alloc: Global, count: u32) -> Result<Ties, NoMemory>
        ensures count { IfOk result (λ t. length t ≡ count) }
        ensures own { IfOk result (λ t. (x : ℕ) → class_of t x ≡ x) }
    {
        Ok(Ties {
            parents: vec![in alloc; None; count as usize]?,
            ranks: vec![in alloc; 0; count as usize]?,
        })
    }

    /// The number that stands for the class of a number.
    pub(crate) fn class(&self, x: u32) -> u32
        requires { x < length self.now }
        ensures class { result ≡ class_of self.now x }
        ensures within { result < length self.now }
        ensures own { class_of self.now result ≡ result }
    {
        let mut at = x;
        while let Some(parent) = self.parents[at as usize] {
            at = parent;
        }
        at
    }

    /// Joins the classes for which these two numbers stand.
    pub(crate) fn join(&mut self, a: u32, b: u32)
        requires one { a < length self.old }
        requires other { b < length self.old }
        requires one_root { class_of self.old a ≡ a }
        requires other_root { class_of self.old b ≡ b }
        requires apart { a ≢ b }
        ensures { Joins (classes_of self.old) a b (classes_of self.new) }
    {
        let low = self.ranks[a as usize] < self.ranks[b as usize];
        if low {
            put_under(&mut self.parents, &mut self.ranks, a, b);
        } else {
            put_under(&mut self.parents, &mut self.ranks, b, a);
        }
    }
}

/// Gives one root the other as its parent, whose rank isn't lower.
fn put_under(parents: &mut [Option<u32>], ranks: &mut [u32], low: u32, high: u32)
    requires forest { IsForest parents.old ranks.old }
    requires low { low < length parents.old }
    requires high { high < length parents.old }
    requires low_root { parent_at parents.old low ≡ None }
    requires high_root { parent_at parents.old high ≡ None }
    requires apart { low ≢ high }
    requires order { slice_index ranks.old low ≤ slice_index ranks.old high }
    ensures forest { IsForest parents.new ranks.new }
    ensures parents { parents.new ≡ slice_set parents.old low (Some high) }
{
    if ranks[low as usize] == ranks[high as usize] {
        ranks[high as usize] += 1;
    }
    parents[low as usize] = Some(high);
}
