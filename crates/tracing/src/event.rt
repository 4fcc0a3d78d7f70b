//! What a trace reports of tasks.

use machine::Cause;

/// What has changed of a task, or that the clock has moved. Tasks, objects and exceptions are their numbers; an address is that of the instruction of the step,
/// where the event is something that a statement does.
#[derive(Clone, Copy)]
pub enum Event {
    /// It is ready at the start (RM 9.2).
    Ready {
        task: u8,
    },
    /// It runs from now on, at this active priority (RM D.2.1).
    Runs {
        task: u8,
        priority: u8,
    },
    /// A task of a higher active priority runs in its place (RM D.2.3).
    Preempted {
        task: u8,
        by: u8,
    },
    /// Its `delay until` is due already, which puts it after those of its priority: this one runs (RM D.2.3).
    GivesWay {
        task: u8,
        to: u8,
    },
    /// What it asks for is refused, and the step raises Program_Error.
    Refused {
        task: u8,
        cause: Cause,
        address: Option<u16>,
    },
    /// It raises an exception, handled or not, in this subprogram at the instruction of this address (RM 11.3).
    Raises {
        task: u8,
        exception: u16,
        subprogram: u16,
        address: u16,
    },
    /// An exception that has left an action is raised again at the call: its own, or the one that was served by the action (RM 9.5.3, 11.4).
    RaisesAtCall {
        task: u8,
        exception: u16,
        subprogram: u16,
        address: u16,
    },
    /// It waits until a time, in microseconds since the start (RM 9.6).
    Waits {
        task: u8,
        until: i64,
        address: Option<u16>,
    },
    /// The time that its `delay until` asks for has passed, by so many microseconds (RM 9.6).
    Late {
        task: u8,
        by: u64,
        address: Option<u16>,
    },
    /// It reads this value from an input channel.
    Reads {
        task: u8,
        channel: i64,
        value: i64,
        address: Option<u16>,
    },
    /// Its time has come, and it is ready (RM 9.6).
    Wakes {
        task: u8,
    },
    /// It has opened an action of an object, and has this active priority (RM 9.5.1, D.3).
    Enters {
        task: u8,
        object: u8,
        priority: u8,
        address: Option<u16>,
    },
    /// Its action of an object is over, and it has this active priority.
    Leaves {
        task: u8,
        object: u8,
        priority: u8,
        address: Option<u16>,
    },
    /// Its call waits in the queue of an object's entry (RM 9.5.3).
    Queues {
        task: u8,
        object: u8,
        address: Option<u16>,
    },
    /// Another task begins to run the entry body for its call (RM 9.5.3).
    Served {
        task: u8,
        object: u8,
        by: u8,
    },
    /// The entry body that was run for its call is over, and it is ready.
    Returns {
        task: u8,
        object: u8,
    },
    /// From its call of the entry to the end of the body it has waited so many microseconds.
    HasWaited {
        task: u8,
        object: u8,
        time: u64,
    },
    /// It has finished (RM 9.3).
    Ends {
        task: u8,
    },
    /// An exception has left its body, which ends the run (RM 11.4.1).
    Unhandled {
        task: u8,
        exception: u16,
    },
    /// Nobody was ready, and virtual time has moved to the next wake time.
    ClockMoves,
}

impl Default for Event {
    fn default() -> Self {
        Event::ClockMoves
    }
}
