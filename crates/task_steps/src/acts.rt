//! What a step of a task asks of the kernel, and what it gives to a caller that it has served.
ghost use Rattle.std.specs.Prelude.{◌≡◌, None};
ghost use Rattle.task_steps.specs.Stepping.{unless_quiet};

/// What a step asks of the kernel. Objects, labels and exceptions are their numbers in the image.
#[derive(Clone, Copy, PartialEq, Eq, Debug)]
pub enum Effect {
    /// Nothing.
    Quiet,
    /// The task's body has ended (RM 9.3).
    Finishes,
    /// The code did what no compiled code does.
    Breaks,
    /// A line is written.
    Says { label: u16, value: i64 },
    /// `delay until` a time in microseconds, due or not (RM 9.6).
    Delays { until: i64 },
    /// An action of the object is opened for a procedure or an entry (RM 9.5.1).
    Opens { object: u8 },
    /// An action of the object is opened for a function (RM 9.5.1).
    Views { object: u8 },
    /// An entry call with a closed barrier waits in the queue of the object (RM 9.5.3).
    Queues { object: u8 },
    /// The body that the innermost action runs is left, which reports whether the barrier is open (RM 9.5.3).
    Ends { is_open: bool },
    /// An exception left the task's body (RM 11.4.1).
    Dies { exception: u16 },
}

/// What a served caller gets (RM 9.5.3).
#[derive(Clone, Copy, PartialEq, Eq, Debug)]
pub enum Given {
    /// The results of the entry's body: the words that `Memory` has on their way.
    Results,
    /// The exception to raise at its entry call.
    Raised(u16),
}

/// What a step has done.
#[derive(Clone, Copy, PartialEq, Eq, Debug)]
pub struct Act {
    pub effect: Effect,
    pub given: Option<Given>,
}

impl Act {
    /// Gives nothing to anyone.
    pub(crate) fn of(effect: Effect) -> Act
        ensures { result ≡ record { effect = effect; given = None } }
    {
        Act {
            effect,
            given: None,
        }
    }

    /// Itself, or nothing where it is quiet.
    pub(crate) fn unless_quiet(self) -> Option<Act>
        ensures { result ≡ unless_quiet self }
    {
        match self.effect {
            Effect::Quiet if self.given.is_none() => None,
            _ => Some(self),
        }
    }
}
