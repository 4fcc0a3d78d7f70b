//! What happens to a task, and which object is called, by one event of a trace.
ghost use Rattle.std.specs.Prelude.{◌≡◌};
ghost use Rattle.measuring.specs.Stories.{call_of, notice_of};

use machine::FrameUse;
use tracing::Event;

/// What happens to a task, or to the handler of an interrupt.
#[derive(Clone, Copy)]
pub enum Happening {
    /// A job of it begins at this time, when so many steps of the run have been taken.
    Released { time: i64, step: u64 },
    /// It takes this step of the run, counted from 1, and has this of frames before it.
    Steps { step: u64, frames: Option<FrameUse> },
    /// Its job is over: it waits for a time, its call is queued, or it has ended (RM 9.6, 9.5.3, 9.3).
    Rests,
    /// A task of a higher active priority runs in its place (RM D.2.3).
    Preempted,
    /// Its call that was queued is over, for which it has waited so many microseconds (RM 9.5.3).
    HasWaited { time: u64 },
    /// The time that its `delay until` asks for has passed, by so many microseconds (RM 9.6).
    Late { by: u64 },
}

/// What happens, and to which task or handler, by its number.
#[derive(Clone, Copy)]
pub struct Notice {
    pub task: u8,
    pub happening: Happening,
}

/// A call of a protected object, by its number, that waits in the queue of the object's entry or not.
#[derive(Clone, Copy, PartialEq, Eq, Debug)]
pub struct Call {
    pub object: u8,
    pub is_queued: bool,
}

/// What an event of this time, after so many steps of the run, says of a task, where there are so many tasks.
pub(crate) fn notice_of(tasks: u8, time: i64, step: u64, event: &Event) -> Option<Notice>
    ensures { result ≡ notice_of tasks time step event.now }
{
    let (task, happening) = match event {
        Event::Ready { task } | Event::Wakes { task } | Event::Returns { task, .. } => {
            (*task, Happening::Released { time, step })
        }
        Event::Runs { task, .. } => {
            if *task < tasks {
                return None;
            }
            (*task, Happening::Released { time, step })
        }
        Event::Waits { task, .. } | Event::Queues { task, .. } | Event::Ends { task } => {
            (*task, Happening::Rests)
        }
        Event::Preempted { task, .. } => (*task, Happening::Preempted),
        Event::HasWaited { task, time, .. } => (*task, Happening::HasWaited { time: *time }),
        Event::Late { task, by, .. } => (*task, Happening::Late { by: *by }),
        Event::GivesWay { .. }
        | Event::Refused { .. }
        | Event::Raises { .. }
        | Event::RaisesAtCall { .. }
        | Event::Reads { .. }
        | Event::Enters { .. }
        | Event::Leaves { .. }
        | Event::Served { .. }
        | Event::Unhandled { .. }
        | Event::ClockMoves => return None,
    };
    Some(Notice { task, happening })
}

/// The call that an event reports, if it reports one.
pub(crate) fn call_of(event: &Event) -> Option<Call>
    ensures { result ≡ call_of event.now }
{
    match event {
        Event::Enters { object, .. } => Some(Call {
            object: *object,
            is_queued: false,
        }),
        Event::Queues { object, .. } => Some(Call {
            object: *object,
            is_queued: true,
        }),
        _ => None,
    }
}
