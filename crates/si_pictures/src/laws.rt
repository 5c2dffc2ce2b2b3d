//! The laws of pictures, as contracts of functions that do nothing.

ghost use Rattle.si_pictures.specs.Laws.{TextsHaveOneReading, PicturesAreReadBack};
ghost use Rattle.si_pictures.specs.Laws.{PictureTextsAreUnique, PictureTextsExist};

/// What was read, with names for its states, has one text of its picture.
pub fn pictures_are_unique()
    ensures one { PictureTextsAreUnique }
    ensures some { PictureTextsExist }
{}

/// A text of the grammar has one reading; the text of a picture is read as that picture and nothing
/// else, whatever bytes its names have.
pub fn pictures_are_read_back()
    ensures one { TextsHaveOneReading }
    ensures back { PicturesAreReadBack }
{}
