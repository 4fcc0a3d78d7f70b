//! What a search looks for, and what it finds.
use execution::Line;

/// What is looked for.
#[derive(Clone, Copy, PartialEq, Eq, Debug)]
pub enum Wanted<'a> {
    /// An exception that nothing handles, or waiting forever.
    UnhandledOrWaits,
    /// An exception that nothing handles (RM 11.4.1).
    Unhandled,
    /// Nobody runs, is ready or is delayed, and a call is queued.
    WaitsForever,
    /// A line with this label, from whichever task or handler.
    Line(&'a [u8]),
}

/// What was found. Times are in microseconds since the start.
#[derive(Clone, Copy, PartialEq, Eq, Debug)]
pub enum Finding {
    /// An exception, by its number, has left the body of a task, by its number.
    Unhandled { exception: u16, task: u8, time: i64 },
    /// Nobody runs, is ready or is delayed, and a call is queued.
    WaitsForever { time: i64 },
    /// This line was written.
    Line(Line),
}
