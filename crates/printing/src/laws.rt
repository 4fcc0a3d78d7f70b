//! Laws of the layout of texts.
ghost use Rattle.printing.specs.Laws.{IsStable, KeepsContents};

/// The layout of a text has the same tokens, spelled alike, and the same comments, but for white space at their ends, in the same order.
pub fn keeps_contents()
    ensures { KeepsContents }
{}

/// The layout of a layout is that itself.
pub fn is_stable()
    ensures { IsStable }
{}
