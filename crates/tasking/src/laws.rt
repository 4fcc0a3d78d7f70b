//! Laws for whoever keeps the lines beside the tasks: each is what a function without work ensures.
ghost use Rattle.tasking.specs.Laws.{KeptWithLines, LinesApart};

/// An effect, with dispatching and the clock, does the same whatever lines there are, and adds the line that it writes, if any.
pub fn lines_apart()
    ensures { LinesApart }
{}

/// The kernel's invariant holds whatever lines there are.
pub fn kept_with_lines()
    ensures { KeptWithLines }
{}
