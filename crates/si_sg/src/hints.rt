//! Where names of states are looked for before the table of names is asked.

ghost use Rattle.std.specs.Prelude.{◌≡◌, ◌≢◌, AllPairs, IfSome, Some, slice_get};

use si_base::ids::NoMemory;
use si_base::names::Names;
use std::alloc::Global;

/// The most hints that there are.
const MOST_HINTS: usize = 262_144;

/// For each slot the place of the last name that was noted there. Each name has one slot.
///
/// A hint is only believed where the name stands at its place. So a text whose names are chosen to
/// share their slots is read no worse than without hints: they are looked up among the names.
/// Others are mostly found here, for less than that costs.
#[derive(Drop)]
pub(crate) struct Hints {
    places: Vec<u32>,
}

impl Hints {
    /// Hints for the names of a text of so many bytes, of which none is right yet. It fails only
    /// where memory runs out.
    pub(crate) fn new(alloc: Global, bytes: usize) -> Result<Hints, NoMemory> {
        let count = (bytes / 64).clamp(16, MOST_HINTS).next_power_of_two();
        Ok(Hints {
            places: vec![in alloc; 0; count]?,
        })
    }

    /// The place of the name, if its hint is right. `None` doesn't say that it isn't there.
    pub(crate) fn place(&self, names: &Names, name: &[u8]) -> Option<u32>
        ensures placed { IfSome result (λ k. slice_get names.now k ≡ Some name.now) }
        ensures distinct { AllPairs (λ x y. x ≢ y) names.now }
    {
        let place = self.places.get(self.slot(name)).copied().unwrap_or(0);
        if names.is_at(place, name) {
            Some(place)
        } else {
            None
        }
    }

    /// Notes the place of a name.
    pub(crate) fn note(&mut self, name: &[u8], place: u32) {
        let slot = self.slot(name);
        if let Some(hint) = self.places.get_mut(slot) {
            *hint = place;
        }
    }

    /// The slot of a name: its bytes as digits to the base 31, so that numbered names have slots
    /// apart.
    fn slot(&self, name: &[u8]) -> usize {
        let mut mixed: usize = 0;
        for byte in name {
            mixed = mixed.wrapping_mul(31).wrapping_add(*byte as usize);
        }
        mixed & self.places.len().saturating_sub(1)
    }
}
