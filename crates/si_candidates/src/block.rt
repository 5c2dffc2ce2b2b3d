//! A block with what a search asks of it again and again.

ghost use Rattle.std.specs.Prelude.{◌≡◌, ◌↔◌, IfOk, IsTrue, count_by, length};
ghost use Rattle.si_base.specs.Sets.{IsDisjoint};
ghost use Rattle.si_candidates.specs.Blocks.{same_set};

use si_base::ids::NoMemory;
use si_base::sets::StateSet;
use std::alloc::Global;
use std::marker::Model;

/// A set of states, counted. Contracts see it as the set.
#[derive(Drop)]
pub struct Block {
    set: StateSet,
    count: u32,
}

impl Model for Block {
    ghost use Rattle.std.specs.Prelude.{◌≡◌, List, Bool, count_by};

    ghost Value = { List Bool };

    ghost view = { λ b. b.set };

    ghost invariant = { λ b. b.count ≡ count_by (λ x. x) b.set };
}

impl Block {
    /// The block of the states of a set. It fails only where memory runs out.
    pub fn of(alloc: Global, set: &StateSet) -> Result<Block, NoMemory>
        ensures { IfOk result (λ b. b ≡ set.now) }
    {
        let mut copy = StateSet::new(alloc, set.size())?;
        copy.union_with(set);
        let count = copy.count();
        Ok(Block { set: copy, count })
    }

    /// The block of the states of this very set.
    pub fn from_set(set: StateSet) -> Block
        ensures { result ≡ set }
    {
        let count = set.count();
        Block { set, count }
    }

    /// The set.
    pub fn set(&self) -> &StateSet
        ensures { result.now ≡ self.now }
    {
        &self.set
    }

    /// How many states are in the block.
    pub fn count(&self) -> u32
        ensures { result ≡ count_by (λ x. x) self.now }
    {
        self.count
    }

    /// Whether no state is in both blocks.
    pub fn is_apart(&self, other: &Block) -> bool
        requires { length self.now ≡ length other.now }
        ensures { IsTrue result ↔ IsDisjoint self.now other.now }
    {
        self.set().is_disjoint(other.set())
    }

    /// Whether the blocks have the same states.
    pub fn is_same(&self, other: &Block) -> bool
        ensures { result ≡ same_set self.now other.now }
    {
        if self.count != other.count {
            return false;
        }
        have_same_states(&self.set, &other.set)
    }

    /// The set alone.
    pub fn into_set(self) -> StateSet
        ensures { result ≡ self }
    {
        let Block { set, count: _ } = self;
        set
    }
}

/// Whether two sets have one size and the same states.
fn have_same_states(x: &StateSet, y: &StateSet) -> bool
    ensures { result ≡ same_set x.now y.now }
{
    x.size() == y.size() && x.is_subset(y) && y.is_subset(x)
}
