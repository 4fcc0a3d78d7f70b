//! The laws of rows that are put together: each is what a function without work ensures.
ghost use Rattle.handlers.specs.Laws.{RowsAround, RowsElsewhere, RowsInside, RowsInsideLast};

/// Rows of which none both covers the place and handles the exception change nothing, wherever they are added.
pub fn rows_elsewhere()
    ensures { RowsElsewhere }
{}

/// Where the inner rows have a handler for the place and the exception, it stays the handler when rows around them are added: rows whose
/// regions, where they cover the place and handle the exception, are at least as long as those of the inner rows that do both.
pub fn rows_inside()
    ensures { RowsInside }
{}

/// Where rows around the inner ones come first, the innermost handler stays the same if their regions are longer.
pub fn rows_inside_last()
    ensures { RowsInsideLast }
{}

/// Where the inner rows have no handler for the place and the exception, the other rows decide.
pub fn rows_around()
    ensures { RowsAround }
{}
