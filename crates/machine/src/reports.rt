//! How runs end, and what their steps report.
use arrayvec::ArrayVec;

/// The most bytes that a line has, its end included.
pub const LINE_BYTES: usize = 128;

/// One line of output, its end included.
pub type LineText = ArrayVec<u8, LINE_BYTES>;

/// How a run ended. Times are in microseconds.
#[derive(Clone, Copy, PartialEq, Eq, Debug)]
pub enum Outcome {
    /// All tasks have finished.
    Ended { time: i64 },
    /// Nobody runs, is ready or is delayed, and a call is queued.
    WaitsForever { time: i64 },
    /// An exception, by its number, left the body of a task, by its number.
    Unhandled { exception: u16, task: u8, time: i64 },
    /// The code did what no compiled code does.
    ImageFault { time: i64 },
    /// The limit on steps was reached before any of the others.
    StepLimit { time: i64 },
}

/// What a step reports.
#[derive(Drop)]
pub enum Event {
    /// Nothing that can be seen.
    Quiet,
    /// It wrote this line.
    Line(LineText),
    /// The run is over.
    Done(Outcome),
}
