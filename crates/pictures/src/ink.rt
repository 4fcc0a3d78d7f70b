//! How what is drawn looks.
ghost use Rattle.std.specs.Prelude.{◌≡◌, ◌≤◌};
ghost use Rattle.pictures.specs.Inks as inks;

/// What is drawn: the first nine are bars, which go from where they begin to the right edge, the others are marks.
#[derive(Clone, Copy)]
pub enum Ink {
    /// A task is ready, and another one runs (RM D.2.1).
    Ready,
    /// It runs.
    Running,
    /// It waits for a time (RM 9.6).
    Delayed,
    /// Its call waits in the queue of an entry (RM 9.5.3).
    Queued,
    /// It has ended.
    Ended,
    /// A call waits in the queue of an object's entry.
    Waits,
    /// No call waits there any more.
    Served,
    /// Somebody is inside an object (RM 9.5.1).
    Entered,
    /// Nobody is inside it any more.
    Left,
    /// A task begins to run.
    Ran,
    /// An action of an object begins.
    Used,
    /// A task is preempted (RM D.2.3).
    Preempted,
    /// The time has passed that its `delay until` asks for.
    Late,
    /// What it asks for is refused.
    Refused,
    /// It raises an exception (RM 11.3).
    Raised,
    /// An exception leaves its body.
    Unhandled,
    /// It writes a line.
    Line,
    /// The clock comes to a line of the schedule.
    Input,
}

impl Ink {
    /// The class by which the style gives it its colour.
    pub(crate) fn class(self) -> &'static [u8]
        ensures { result.now ≡ inks.class self }
    {
        match self {
            Ink::Ready => b"ready",
            Ink::Running => b"running",
            Ink::Delayed => b"delayed",
            Ink::Queued => b"queued",
            Ink::Ended => b"ended",
            Ink::Waits => b"waits",
            Ink::Served => b"served",
            Ink::Entered => b"entered",
            Ink::Left => b"left",
            Ink::Ran => b"ran",
            Ink::Used => b"used",
            Ink::Preempted => b"preempted",
            Ink::Late => b"late",
            Ink::Refused => b"refused",
            Ink::Raised => b"raised",
            Ink::Unhandled => b"unhandled",
            Ink::Line => b"line",
            Ink::Input => b"input",
        }
    }

    /// Its outline, from the point where it is drawn.
    pub(crate) fn outline(self) -> &'static [u8]
        ensures { result.now ≡ inks.outline self }
    {
        match self {
            Ink::Ready
            | Ink::Running
            | Ink::Delayed
            | Ink::Queued
            | Ink::Ended
            | Ink::Waits
            | Ink::Served
            | Ink::Entered
            | Ink::Left => b"H16800",
            Ink::Ran | Ink::Used => b"v-120",
            Ink::Preempted => b"l-45-100h90z",
            Ink::Late => b"l-55-60 55-60 55 60z",
            Ink::Refused | Ink::Raised | Ink::Unhandled => b"m-50-110 100 100m0-100-100 100",
            Ink::Line => b"v-150h110l-35 40 35 40h-110",
            Ink::Input => b"l-50 90h100z",
        }
    }

    /// How far below the upper edge of its row it is, in tenths of a pixel.
    pub(crate) fn offset(self) -> u64
        ensures is { result ≡ inks.offset self }
        ensures few { result ≤ 1000 }
    {
        match self {
            Ink::Waits | Ink::Served => 225,
            Ink::Entered | Ink::Left => 285,
            Ink::Ready | Ink::Running | Ink::Delayed | Ink::Queued | Ink::Ended => 250,
            Ink::Ran
            | Ink::Used
            | Ink::Preempted
            | Ink::Late
            | Ink::Refused
            | Ink::Raised
            | Ink::Unhandled
            | Ink::Line => 170,
            Ink::Input => 70,
        }
    }

    /// The words of its title.
    pub(crate) fn words(self) -> &'static [u8]
        ensures { result.now ≡ inks.words self }
    {
        match self {
            Ink::Ready => b"is ready",
            Ink::Running | Ink::Ran => b"runs",
            Ink::Delayed => b"waits until ",
            Ink::Queued | Ink::Waits => b"queues at ",
            Ink::Ended => b"ends",
            Ink::Served => b"is served at ",
            Ink::Entered | Ink::Used => b"enters ",
            Ink::Left => b"leaves ",
            Ink::Preempted => b"is preempted by ",
            Ink::Late => b"is late by ",
            Ink::Refused => b"is refused an operation",
            Ink::Raised => b"raises ",
            Ink::Unhandled => b"is left by ",
            Ink::Line => b"writes ",
            Ink::Input => b"line ",
        }
    }
}
