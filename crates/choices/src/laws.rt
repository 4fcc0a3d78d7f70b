//! Laws of the parts of a set, each the contract of an empty function.
ghost use Rattle.choices.specs.Parts.{ArePartsOfAll};

/// Each choice is of exactly one of so many parts; the only part is the set itself, and has its number of choices; a part's number is that of its
/// combinations, counted one by one, times that of the choices of the other slots.
pub fn parts_are_the_set()
    ensures { ArePartsOfAll }
{}
