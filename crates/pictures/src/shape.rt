//! What is drawn of an event of a trace.
ghost use Rattle.std.specs.Prelude.{◌≡◌};
ghost use Rattle.pictures.specs.Shapes.{begins_instant, mark_shape, object_shape, of_actor, of_object, state_shape, use_shape};

use crate::frame::Row;
use crate::ink::Ink;
use tracing::Event;

/// What the title of a shape says after its words.
#[derive(Clone, Copy)]
pub enum Detail {
    Nothing,
    /// A time, in microseconds.
    Time(i64),
    /// How long, in microseconds.
    Span(u64),
    /// An object, by its number.
    Object(u8),
    /// A task or handler.
    Actor(u8),
    /// An exception.
    Exception(u16),
}

/// What is drawn in a row, and whose it is.
#[derive(Clone, Copy)]
pub struct Shape {
    pub row: Row,
    pub ink: Ink,
    pub actor: u8,
    pub detail: Detail,
}

// In the row of a task or handler.
fn of_actor(actor: u8, ink: Ink, detail: Detail) -> Option<Shape>
    ensures { result ≡ of_actor actor ink detail }
{
    let row = Row::Actor(actor);
    Some(Shape {
        row,
        ink,
        actor,
        detail,
    })
}

// In the row of an object.
fn of_object(object: u8, actor: u8, ink: Ink) -> Option<Shape>
    ensures { result ≡ of_object object actor ink }
{
    let row = Row::Object(object);
    let detail = Detail::Object(object);
    Some(Shape {
        row,
        ink,
        actor,
        detail,
    })
}

/// In which state a task is from an event on.
pub(crate) fn state_shape(event: &Event) -> Option<Shape>
    ensures { result ≡ state_shape event.now }
{
    match event {
        Event::Ready { task }
        | Event::Wakes { task }
        | Event::Returns { task, .. }
        | Event::GivesWay { task, .. }
        | Event::Preempted { task, .. } => of_actor(*task, Ink::Ready, Detail::Nothing),
        Event::Runs { task, .. } => of_actor(*task, Ink::Running, Detail::Nothing),
        Event::Waits { task, until, .. } => of_actor(*task, Ink::Delayed, Detail::Time(*until)),
        Event::Queues { task, object, .. } => {
            of_actor(*task, Ink::Queued, Detail::Object(*object))
        }
        Event::Ends { task } => of_actor(*task, Ink::Ended, Detail::Nothing),
        _ => None,
    }
}

/// What has happened to a task.
pub(crate) fn mark_shape(event: &Event) -> Option<Shape>
    ensures { result ≡ mark_shape event.now }
{
    match event {
        Event::Runs { task, .. } => of_actor(*task, Ink::Ran, Detail::Nothing),
        Event::Preempted { task, by } => of_actor(*task, Ink::Preempted, Detail::Actor(*by)),
        Event::Late { task, by, .. } => of_actor(*task, Ink::Late, Detail::Span(*by)),
        Event::Refused { task, .. } => of_actor(*task, Ink::Refused, Detail::Nothing),
        Event::Raises {
            task,
            exception,
            ..
        }
        | Event::RaisesAtCall {
            task,
            exception,
            ..
        } => { of_actor(*task, Ink::Raised, Detail::Exception(*exception)) }
        Event::Unhandled { task, exception } => {
            of_actor(*task, Ink::Unhandled, Detail::Exception(*exception))
        }
        _ => None,
    }
}

/// Whether somebody is inside an object from an event on, or a call waits at it.
pub(crate) fn object_shape(event: &Event) -> Option<Shape>
    ensures { result ≡ object_shape event.now }
{
    match event {
        Event::Enters { task, object, .. } => of_object(*object, *task, Ink::Entered),
        Event::Leaves { task, object, .. } => of_object(*object, *task, Ink::Left),
        Event::Queues { task, object, .. } => of_object(*object, *task, Ink::Waits),
        Event::Served { task, object, .. } => of_object(*object, *task, Ink::Served),
        _ => None,
    }
}

/// That an object is used.
pub(crate) fn use_shape(event: &Event) -> Option<Shape>
    ensures { result ≡ use_shape event.now }
{
    match event {
        Event::Enters { task, object, .. } => of_object(*object, *task, Ink::Used),
        _ => None,
    }
}

/// Whether an instant begins.
pub(crate) fn begins_instant(event: &Event) -> bool
    ensures { result ≡ begins_instant event.now }
{
    match event {
        Event::ClockMoves => true,
        _ => false,
    }
}
