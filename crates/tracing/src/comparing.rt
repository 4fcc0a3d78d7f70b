//! What a step has changed, by a machine before it and one after it.
ghost use Rattle.std.specs.Prelude.{◌≡◌, ◌+◌, ◌*◌, ◌<◌, ◌≤◌, ◌++◌, ◌||◌, ℕ, [], length, Some, int_lt};
ghost use Rattle.arrayvec.specs.ArrayVec.{array_vec_len};
ghost use Rattle.base.specs.declared.limits.TheConstants.{OBJECTS, TASKS};
ghost use Rattle.tasking.specs.Held.{kernel_of};
ghost use Rattle.tracing.specs.Changes.{asked, calling, crossing, dispatched, each, first_runs, gave_up, having_waited, is_followed, is_later, list_of, outranked, place_left, raises, raising, ready, refusal, since_clock, starts, stopped, until_clock, waits, waking};
ghost use Rattle.tracing.specs.declared.comparing.TheConstants.{EVENTS};

use crate::ahead::Ahead;
use crate::calls::call_time;
use crate::event::Event;
use arrayvec::ArrayVec;
use base::limits::{OBJECTS, TASKS};
use clock::Delays;
use dispatch::Ready;
use machine::{Asking, Machine, Outcome, Place, Raising};

/// The most events of one step at one time.
pub const EVENTS: usize = OBJECTS + 2 * TASKS + 4;

/// Events of one step at one time, in their order.
pub type Events = ArrayVec<Event, EVENTS>;

// Adds an event, if there is one.
fn add(events: &mut Events, event: Option<Event>)
    requires { array_vec_len events.old < EVENTS }
    ensures items { events.new.items ≡ events.old.items ++ list_of event }
    ensures len { array_vec_len events.new ≤ array_vec_len events.old + 1 }
{
    if let Some(event) = event {
        events.push(event);
    }
}

// Whether the clock has moved.
fn is_later<R: Ready, D: Delays>(before: &Machine<'_, R, D>, after: &Machine<'_, R, D>) -> bool
    ensures { result ≡ is_later (kernel_of before.now.tasking) (kernel_of after.now.tasking) }
{
    before.now() < after.now()
}

// Whether the task that ran is a handler whose end has delivered the next interrupt (RM C.3.1).
fn is_followed<R: Ready, D: Delays>(
    before: &Machine<'_, R, D>,
    after: &Machine<'_, R, D>,
    task: u8,
) -> bool
    ensures { result ≡ is_followed (kernel_of before.now.tasking) (kernel_of after.now.tasking) task }
{
    let is_task = task < after.tasks();
    !is_task && after.pending() < before.pending()
}

// Whether the task that ran has entered or left an object.
fn crossing<R: Ready, D: Delays>(
    before: &Machine<'_, R, D>,
    after: &Machine<'_, R, D>,
    task: u8,
    address: Option<u16>,
    object: u8,
) -> Option<Event>
    requires image { before.now.image ≡ after.now.image }
    requires object { object < length after.now.image.objects }
    ensures { result ≡ crossing (kernel_of before.now.tasking) (kernel_of after.now.tasking) task address object }
{
    let priority = after.active_of_actor(task);
    let is_followed = is_followed(before, after, task);
    match (
        before.is_actor_inside(task, object),
        !is_followed && after.is_actor_inside(task, object),
    ) {
        (false, true) => Some(Event::Enters {
            task,
            object,
            priority,
            address,
        }),
        (true, false) => Some(Event::Leaves {
            task,
            object,
            priority,
            address,
        }),
        _ => None,
    }
}

// What the task that ran, `by`, has made of a task's call.
fn calling<R: Ready, D: Delays>(
    before: &Machine<'_, R, D>,
    after: &Machine<'_, R, D>,
    by: u8,
    task: u8,
) -> Option<Event>
    ensures { result ≡ calling (kernel_of before.now.tasking) (kernel_of after.now.tasking) by task }
{
    match (before.place_of_actor(task), after.place_of_actor(task)) {
        (Place::Queued(object), Place::Served(_)) => Some(Event::Served { task, object, by }),
        (Place::Served(object), Place::Ready | Place::Running) => {
            Some(Event::Returns { task, object })
        }
        _ => None,
    }
}

// How long a task has waited whose call is over, by the times of calls.
fn having_waited<R: Ready, D: Delays>(
    calls: &[i64],
    before: &Machine<'_, R, D>,
    after: &Machine<'_, R, D>,
    task: u8,
) -> Option<Event>
    ensures { result ≡ having_waited calls.now (kernel_of before.now.tasking) (kernel_of after.now.tasking) task }
{
    match (before.place_of_actor(task), after.place_of_actor(task)) {
        (Place::Served(object), Place::Ready | Place::Running) => {
            let time = before.now().abs_diff(call_time(calls, task));
            Some(Event::HasWaited { task, object, time })
        }
        _ => None,
    }
}

// Who runs in the place of a task that is ready again: one that preempts it, or one of its own priority.
fn outranked<R: Ready, D: Delays>(after: &Machine<'_, R, D>, task: u8) -> Option<Event>
    ensures { result ≡ outranked (kernel_of after.now.tasking) task (kernel_of after.now.tasking).running }
{
    let by = after.actor()?;
    if after.active_of_actor(task) < after.active_of_actor(by) {
        Some(Event::Preempted { task, by })
    } else {
        Some(Event::GivesWay { task, to: by })
    }
}

// Until when the task that ran waits, where it gave up the processor to wait.
fn waits<R: Ready, D: Delays>(after: &Machine<'_, R, D>, task: u8, address: Option<u16>) -> Event
    ensures { result ≡ waits (kernel_of after.now.tasking) task address }
{
    let until = match after.wake_time(task) {
        Some(wake) => wake,
        None => after.now(),
    };
    Event::Waits {
        task,
        until,
        address,
    }
}

// How the task that ran gave up the processor, if it did.
fn gave_up<R: Ready, D: Delays>(
    before: &Machine<'_, R, D>,
    after: &Machine<'_, R, D>,
    task: u8,
    address: Option<u16>,
) -> Option<Event>
    ensures { result ≡ gave_up (kernel_of after.now.tasking) task address (is_later (kernel_of before.now.tasking) (kernel_of after.now.tasking))
        (place_left (kernel_of before.now.tasking) (kernel_of after.now.tasking) task) }
{
    if is_followed(before, after, task) {
        return Some(Event::Ends { task });
    }
    match (is_later(before, after), after.place_of_actor(task)) {
        (_, Place::Asleep) | (true, Place::Running | Place::Ready) => {
            Some(waits(after, task, address))
        }
        (_, Place::Queued(object)) => Some(Event::Queues {
            task,
            object,
            address,
        }),
        (_, Place::Finished) => Some(Event::Ends { task }),
        (false, Place::Ready) => outranked(after, task),
        (false, Place::Running) | (_, Place::Served(_)) => None,
    }
}

// Whether a task has woken.
fn waking<R: Ready, D: Delays>(
    before: &Machine<'_, R, D>,
    after: &Machine<'_, R, D>,
    task: u8,
) -> Option<Event>
    ensures { result ≡ waking (kernel_of before.now.tasking) (kernel_of after.now.tasking) task }
{
    match (
        is_later(before, after),
        before.place_of_actor(task),
        after.place_of_actor(task),
    ) {
        (_, Place::Asleep, Place::Ready | Place::Running)
        | (true, Place::Running, Place::Ready | Place::Running) => Some(Event::Wakes { task }),
        _ => None,
    }
}

// Who runs now, unless it is the task that ran and has run on.
fn dispatched<R: Ready, D: Delays>(
    before: &Machine<'_, R, D>,
    after: &Machine<'_, R, D>,
    ran: u8,
) -> Option<Event>
    ensures { let k = kernel_of before.now.tasking in let l = kernel_of after.now.tasking in
        result ≡ dispatched l ran (is_later k l || is_followed k l ran) l.running }
{
    let task = after.actor()?;
    let is_anew = is_later(before, after) || is_followed(before, after, ran);
    if is_anew || task != ran {
        let priority = after.active_of_actor(task);
        Some(Event::Runs { task, priority })
    } else {
        None
    }
}

// The exception that has ended the run, if one has.
fn stopped<R: Ready, D: Delays>(after: &Machine<'_, R, D>) -> Option<Event>
    ensures { result ≡ stopped (kernel_of after.now.tasking).outcome }
{
    match after.outcome() {
        Some(
            Outcome::Unhandled {
                exception,
                task,
                ..
            },
        ) => Some(Event::Unhandled { task, exception }),
        _ => None,
    }
}

// The exception that a task raises.
fn raises(task: u8, raising: &Raising) -> Event
    ensures { result ≡ raises task raising.now }
{
    let exception = raising.exception;
    let subprogram = raising.subprogram;
    let address = raising.place;
    if raising.is_pending {
        Event::RaisesAtCall {
            task,
            exception,
            subprogram,
            address,
        }
    } else {
        Event::Raises {
            task,
            exception,
            subprogram,
            address,
        }
    }
}

// What a task raises, and why, where it is refused something.
fn raising(task: u8, address: Option<u16>, raised: Option<Raising>) -> Events
    ensures items { result.items ≡ raising task address raised }
    ensures few { array_vec_len result ≤ 2 }
{
    let mut events = ArrayVec::new();
    if let Some(raised) = raised {
        if let Some(cause) = raised.cause {
            events.push(Event::Refused {
                task,
                cause,
                address,
            });
        }
        events.push(raises(task, &raised));
    }
    events
}

// The input that a task reads, or how late it is.
fn asked(task: u8, address: Option<u16>, now: i64, asking: Option<Asking>) -> Option<Event>
    ensures { result ≡ asked task address now asking }
{
    match asking? {
        Asking::Reads { channel, value } => Some(Event::Reads {
            task,
            channel,
            value,
            address,
        }),
        Asking::Waits { until } => {
            if until < now {
                let by = now.abs_diff(until);
                Some(Event::Late { task, by, address })
            } else {
                None
            }
        }
    }
}

// The objects that the task that ran has entered or left.
fn crossings<R: Ready, D: Delays>(
    events: &mut Events,
    before: &Machine<'_, R, D>,
    after: &Machine<'_, R, D>,
    task: u8,
    address: Option<u16>,
)
    requires image { before.now.image ≡ after.now.image }
    requires room { array_vec_len events.old ≤ 3 }
    ensures items { events.new.items ≡ events.old.items ++ each (kernel_of after.now.tasking).partition.objects
        (crossing (kernel_of before.now.tasking) (kernel_of after.now.tasking) task address) }
    ensures few { array_vec_len events.new ≤ 3 + OBJECTS }
{
    for object in 0..after.objects() {
        add(events, crossing(before, after, task, address, object));
    }
}

// What the task that ran has made of callers, and how long those have waited whose calls are over.
fn callers<R: Ready, D: Delays>(
    events: &mut Events,
    calls: &[i64],
    before: &Machine<'_, R, D>,
    after: &Machine<'_, R, D>,
    ran: u8,
)
    requires room { array_vec_len events.old ≤ 3 + OBJECTS }
    ensures items { let k = kernel_of before.now.tasking in let l = kernel_of after.now.tasking in
        events.new.items ≡ (events.old.items ++ each l.partition.tasks (calling k l ran)) ++ each l.partition.tasks (having_waited calls.now k l) }
    ensures few { array_vec_len events.new ≤ 3 + OBJECTS + 2 * TASKS }
{
    for task in 0..after.tasks() {
        add(events, calling(before, after, ran, task));
    }
    for waiting in 0..after.tasks() {
        add(events, having_waited(calls, before, after, waiting));
    }
}

/// What has happened when the clock may move.
pub fn until_clock<R: Ready, D: Delays>(
    calls: &[i64],
    before: &Machine<'_, R, D>,
    after: &Machine<'_, R, D>,
    ran: u8,
    ahead: Ahead,
) -> Events
    requires image { before.now.image ≡ after.now.image }
    ensures { result.items ≡ until_clock calls.now ahead (kernel_of before.now.tasking) (kernel_of after.now.tasking) ran }
{
    let mut events = raising(ran, ahead.address, ahead.raising);
    add(
        &mut events,
        asked(ran, ahead.address, before.now(), ahead.asking),
    );
    crossings(&mut events, before, after, ran, ahead.address);
    callers(&mut events, calls, before, after, ran);
    add(&mut events, gave_up(before, after, ran, ahead.address));
    events
}

/// What has happened since: the clock has moved, tasks have woken, and the highest runs.
pub fn since_clock<R: Ready, D: Delays>(
    before: &Machine<'_, R, D>,
    after: &Machine<'_, R, D>,
    ran: u8,
) -> Events
    ensures { result.items ≡ since_clock (kernel_of before.now.tasking) (kernel_of after.now.tasking) ran }
{
    let mut events = ArrayVec::new();
    if is_later(before, after) {
        events.push(Event::ClockMoves);
    }
    for task in 0..after.tasks() {
        add(&mut events, waking(before, after, task));
    }
    add(&mut events, dispatched(before, after, ran));
    add(&mut events, stopped(after));
    events
}

/// What has happened at the start.
pub fn starts<R: Ready, D: Delays>(machine: &Machine<'_, R, D>) -> Events
    ensures { result.items ≡ starts (kernel_of machine.now.tasking) }
{
    let mut events = ArrayVec::new();
    for task in 0..machine.tasks() {
        events.push(Event::Ready { task });
    }
    if let Some(task) = machine.actor() {
        let priority = machine.active_of_actor(task);
        events.push(Event::Runs { task, priority });
    }
    events
}
