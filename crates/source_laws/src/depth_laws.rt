//! How many words a small source's code has on its operand stack and in its frames.
ghost use Rattle.source_laws.specs.Depths.{FunctionsHaveRoom, PeaksAreLow, ProceduresHaveRoom};

/// The code of a legal expression has the words of its value on the operand stack at most, or 6, and 12 more for each level.
pub fn peaks_are_low()
    ensures { PeaksAreLow }
{}

/// The frame and operand stack of a small procedure are no larger than an image's.
pub fn procedures_have_room()
    ensures { ProceduresHaveRoom }
{}

/// The frame and operand stack of a small function are no larger than an image's.
pub fn functions_have_room()
    ensures { FunctionsHaveRoom }
{}
