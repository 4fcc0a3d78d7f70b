//! The rows of which a chart keeps cells.
ghost use Rattle.std.specs.Prelude.{◌≡◌, ◌<◌};
ghost use Rattle.charts.specs.Signs.{row_number};

use tracing::ACTORS;

/// Of how many rows cells are kept: those of tasks and handlers, those of objects, and that of lines.
pub const ROWS: usize = 2 * ACTORS + 1;

/// What a row is about.
#[derive(Clone, Copy)]
pub enum Row {
    /// A task, or the handler of an interrupt, by its number.
    Actor(u8),
    /// A protected object, by its number.
    Object(u8),
    /// The lines that are written.
    Lines,
}

impl Row {
    /// Its number.
    pub(crate) fn number(self) -> usize
        ensures is { result ≡ row_number self }
        ensures few { result < ROWS }
    {
        match self {
            Row::Actor(actor) => usize::from(actor),
            Row::Object(object) => ACTORS + usize::from(object),
            Row::Lines => 2 * ACTORS,
        }
    }
}
