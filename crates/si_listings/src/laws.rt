//! The laws of the listings, as contracts of functions that do nothing.

ghost use Rattle.si_listings.specs.Laws.{RegionTextsAreUnique, ConflictTextsAreUnique};
ghost use Rattle.si_listings.specs.Laws.{CoverTextsAreUnique};
ghost use Rattle.si_listings.specs.Laws.{RegionTextsExist, ConflictTextsExist, CoverTextsExist};

/// A graph with names for its states has one text of each kind.
pub fn listings_are_unique()
    ensures regions { RegionTextsAreUnique }
    ensures conflicts { ConflictTextsAreUnique }
    ensures covers { CoverTextsAreUnique }
{}

/// A coded graph with names for its states has a text of each kind.
pub fn listings_exist()
    ensures regions { RegionTextsExist }
    ensures conflicts { ConflictTextsExist }
    ensures covers { CoverTextsExist }
{}
