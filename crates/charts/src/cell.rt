//! What one cell of a chart shows.
ghost use Rattle.std.specs.Prelude.{◌≡◌};
ghost use Rattle.charts.specs.Cells.{no_signs, noted};

/// How a task waits at the end of a column, and whether a call waits at an object.
#[derive(Clone, Copy)]
pub enum Rest {
    /// The task has not begun, or has ended; no call waits at the object.
    Nothing,
    /// It is ready, and another task runs (RM D.2.1).
    Ready,
    /// It waits for a time (RM 9.6).
    Delayed,
    /// Its call waits in the queue of an entry; at the object, a call waits in the queue of its entry (RM 9.5.3).
    Queued,
}

/// What is to be seen of a task, of an object, or of lines that are written.
#[derive(Clone, Copy)]
pub enum Sign {
    /// The task takes a step; an action of the object begins or ends; a line is written.
    Acts,
    /// A task of a higher active priority runs in its place (RM D.2.3).
    Preempted,
    /// The time that its `delay until` asks for has passed (RM 9.6).
    Late,
    /// An exception has propagated out of its body, which ends the run (RM 11.4.1).
    Unhandled,
    /// A call is queued at the object.
    Queues,
    /// It rests so from now on.
    Rests(Rest),
}

/// What is to be seen of a task, of an object, or of lines that are written, in one column.
#[derive(Clone, Copy)]
pub struct Cell {
    /// The task has taken a step, the object was used, or a line was written.
    pub acts: bool,
    /// The task was preempted.
    pub is_preempted: bool,
    /// It was late.
    pub is_late: bool,
    /// An exception has propagated out of its body.
    pub is_unhandled: bool,
    /// How it rests at the end of the column, where that has changed within it.
    pub rests: Option<Rest>,
}

impl Cell {
    /// Nothing is to be seen.
    pub(crate) fn new() -> Cell
        ensures { result ≡ no_signs }
    {
        Cell {
            acts: false,
            is_preempted: false,
            is_late: false,
            is_unhandled: false,
            rests: None,
        }
    }

    /// With one more sign, later than those before.
    pub(crate) fn note(&mut self, sign: Sign)
        ensures { self.new ≡ noted sign self.old }
    {
        match sign {
            Sign::Acts => self.acts = true,
            Sign::Preempted => self.is_preempted = true,
            Sign::Late => self.is_late = true,
            Sign::Unhandled => self.is_unhandled = true,
            Sign::Queues => {
                self.acts = true;
                self.rests = Some(Rest::Queued);
            }
            Sign::Rests(rest) => self.rests = Some(rest),
        }
    }
}
