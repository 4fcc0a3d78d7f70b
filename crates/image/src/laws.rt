//! Where subprograms are: what a function without work ensures.
ghost use Rattle.image.specs.Laws.{FoundByEnds};

/// The subprogram that holds a place is found by its number among the ends of subprograms.
pub fn found_by_ends()
    ensures { FoundByEnds }
{}
