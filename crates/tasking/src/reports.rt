//! Where tasks are, what comes of the end of a body, and how a run ends.

/// Where a task is (RM 9, D.2.1).
#[derive(Clone, Copy, PartialEq, Eq, Debug)]
pub enum Place {
    /// It runs.
    Running,
    /// It is ready, and another task runs.
    Ready,
    /// It waits for a time (RM 9.6).
    Asleep,
    /// Its call waits in the queue of this object's entry (RM 9.5.3).
    Queued(u8),
    /// Another task runs the entry body of this object for its call (RM 9.5.3).
    Served(u8),
    /// It has finished, or there is no such task.
    Finished,
}

/// What an open protected action is for (RM 9.5.1).
#[derive(Clone, Copy, PartialEq, Eq, Debug)]
pub(crate) enum Kind {
    /// A function.
    Reads,
    /// A procedure or an entry.
    Writes,
    /// A procedure or an entry, which now runs the entry body for the queued call of this task.
    Serves(u8),
}

impl Default for Kind {
    fn default() -> Self {
        Kind::Reads
    }
}

/// What came of the end of the body that an action runs.
#[derive(Clone, Copy, PartialEq, Eq, Debug)]
pub enum Ending {
    /// The action is closed.
    Closes,
    /// The action goes on with the entry body of the object, for the queued call of a task (RM 9.5.3).
    TakesOver { object: u8, caller: u8 },
    /// The action is closed, and the task that it has served is ready.
    HandsBack { caller: u8 },
}

/// What the end of an action results in, and whether it is the end of a handler: its own action closes (RM C.3.1).
#[derive(Clone, Copy, PartialEq, Eq, Debug)]
pub struct Ended {
    pub ending: Ending,
    pub is_over: bool,
}

/// How a run has come to its end.
#[derive(Clone, Copy, PartialEq, Eq, Debug)]
pub enum Outcome {
    /// All tasks have finished.
    Ended,
    /// Nobody runs, is ready or sleeps, and a call is queued.
    WaitsForever,
    /// The code did what no compiled code does.
    ImageFault,
    /// An exception left the body of a task (RM 11.4.1), both by their numbers.
    Unhandled { exception: u16, task: u8 },
}
