//! Which signs an event of a trace gives.
ghost use Rattle.std.specs.Prelude.{◌≡◌};
ghost use Rattle.charts.specs.Signs.{actor_note, is_line, line_note, object_note, of_actor, of_object};

use crate::cell::{Rest, Sign};
use crate::rows::Row;
use tracing::Event;

/// A sign, and of which row it is one.
#[derive(Clone, Copy)]
pub struct Note {
    pub row: Row,
    pub sign: Sign,
}

// What is said of a task or handler.
fn of_actor(actor: u8, sign: Sign) -> Option<Note>
    ensures { result ≡ of_actor actor sign }
{
    let row = Row::Actor(actor);
    Some(Note { row, sign })
}

/// What an event says of a task or handler, if it says anything.
pub(crate) fn actor_note(event: &Event) -> Option<Note>
    ensures { result ≡ actor_note event.now }
{
    match event {
        Event::Ready { task } | Event::Wakes { task } | Event::Returns { task, .. } => {
            of_actor(*task, Sign::Rests(Rest::Ready))
        }
        Event::Queues { task, .. } => of_actor(*task, Sign::Rests(Rest::Queued)),
        Event::Waits { task, .. } => of_actor(*task, Sign::Rests(Rest::Delayed)),
        Event::Ends { task } => of_actor(*task, Sign::Rests(Rest::Nothing)),
        Event::Preempted { task, .. } => of_actor(*task, Sign::Preempted),
        Event::Late { task, .. } => of_actor(*task, Sign::Late),
        Event::Unhandled { task, .. } => of_actor(*task, Sign::Unhandled),
        Event::Runs { .. }
        | Event::GivesWay { .. }
        | Event::Refused { .. }
        | Event::Raises { .. }
        | Event::RaisesAtCall { .. }
        | Event::Reads { .. }
        | Event::Enters { .. }
        | Event::Leaves { .. }
        | Event::Served { .. }
        | Event::HasWaited { .. }
        | Event::ClockMoves => None,
    }
}

// What is said of an object.
fn of_object(object: u8, sign: Sign) -> Option<Note>
    ensures { result ≡ of_object object sign }
{
    let row = Row::Object(object);
    Some(Note { row, sign })
}

/// What an event says of an object, if it says anything.
pub(crate) fn object_note(event: &Event) -> Option<Note>
    ensures { result ≡ object_note event.now }
{
    match event {
        Event::Enters { object, .. } | Event::Leaves { object, .. } => {
            of_object(*object, Sign::Acts)
        }
        Event::Queues { object, .. } => of_object(*object, Sign::Queues),
        Event::Served { object, .. } => of_object(*object, Sign::Rests(Rest::Nothing)),
        _ => None,
    }
}

/// Whether a step has written a line.
pub(crate) fn is_line(shown: &machine::Event) -> bool
    ensures { result ≡ is_line shown.now }
{
    match shown {
        machine::Event::Line(_) => true,
        machine::Event::Quiet | machine::Event::Done(_) => false,
    }
}

/// What is noted of lines where one was written or not.
pub(crate) fn line_note(wrote: bool) -> Option<Note>
    ensures { result ≡ line_note wrote }
{
    if wrote {
        Some(Note {
            row: Row::Lines,
            sign: Sign::Acts,
        })
    } else {
        None
    }
}
