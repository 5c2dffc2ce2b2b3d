//! Names one after another in one run of bytes.

ghost use Rattle.std.specs.Prelude.{◌≡◌, ◌<◌, [], ◌∷◌, ◌++◌, length, slice_get, slice_index, Some};
ghost use Rattle.std.specs.Prelude.{OnOk, OnErr};

use si_base::ids::NoMemory;
use std::alloc::Global;
use std::marker::Model;

/// Names in a row. They share one run of bytes, so that many short names take little memory.
#[derive(Drop)]
pub struct NameList {
    bytes: Vec<u8>,
    /// Where in the bytes each name ends.
    ends: Vec<usize>,
}

impl Model for NameList {
    ghost use Rattle.std.specs.Prelude.{ℕ, List};
    ghost use Rattle.si_netlist.specs.Loops.Pieces.{pieces, AreEnds};

    ghost Value = { List (List ℕ) };

    ghost view = { λ l. pieces l.bytes.items l.ends.items };

    ghost invariant = { λ l. AreEnds l.bytes.items l.ends.items };
}

impl NameList {
    /// No names.
    pub fn new(alloc: Global) -> NameList
        ensures { result ≡ [] }
    {
        NameList {
            bytes: Vec::new(alloc),
            ends: Vec::new(alloc),
        }
    }

    /// The number of names.
    pub fn len(&self) -> usize
        ensures { result ≡ length self.now }
    {
        self.ends.len()
    }

    /// The bytes of the name at place `k`, from 0.
    pub fn get(&self, k: usize) -> &[u8]
        requires { k < length self.now }
        ensures { slice_get self.now k ≡ Some result.now }
    {
        &self.bytes[begin(&self.ends, k)..self.ends[k]]
    }

    /// Puts a name last. After `NoMemory` the names are as before.
    pub fn push(&mut self, name: &[u8]) -> Result<(), NoMemory>
        ensures added { OnOk result (self.new ≡ self.old ++ name.now ∷ []) }
        ensures kept { OnErr result (self.new ≡ self.old) }
    {
        let before = self.bytes.len();
        self.bytes.extend_from_slice(name)?;
        if self.ends.push(self.bytes.len()).is_err() {
            self.bytes.truncate(before);
            return Err(NoMemory);
        }
        Ok(())
    }
}

/// Where the name at place `k` begins: where the one before it ends.
fn begin(ends: &[usize], k: usize) -> usize
    requires { k < length ends.now }
    ensures { result ≡ slice_index (0 ∷ ends.now) k }
{
    if k == 0 { 0 } else { ends[k - 1] }
}
