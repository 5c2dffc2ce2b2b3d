//! The numbers of components.

ghost use Rattle.std.specs.Prelude.{◌<◌, ◌↔◌, IsTrue, length};
ghost use Rattle.si_listings.specs.RegionText.{RepeatsEvent};

use si_regions::regions::Region;

/// Whether the region has the event of the one before it.
pub fn repeats(regions: &[Region], k: usize) -> bool
    requires { k < length regions.now }
    ensures { IsTrue result ↔ RepeatsEvent regions.now k }
{
    k > 0 && regions[k - 1].event == regions[k].event
}
