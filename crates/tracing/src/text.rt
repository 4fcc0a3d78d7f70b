//! The text of rows (docs/FORMATS.md, "Traces").
ghost use Rattle.std.specs.Prelude.{◌≡◌, ◌+◌, ◌*◌, ◌≤◌, ◌++◌, length, codes, decimal, option_map, slice_get, true};
ghost use Rattle.std.specs.Fmt.{signed_decimal};
ghost use Rattle.arrayvec.specs.ArrayVec.{array_vec_len};
ghost use Rattle.base.specs.declared.limits.TheConstants.{NAME_LIMIT};
ghost use Rattle.image.specs.Texts.{names_of};
ghost use Rattle.tracing.specs.Traces.{called_text, cause_text, event_text, heading, input_text, named_object, operation_at, origin_at, origin_text, place_text, row_names, task_of, telling_text, without_end, Comes, Shows};
ghost use Rattle.tracing.specs.Writing.{is_crossing, is_request, is_service, is_trouble};
ghost use Rattle.tracing.specs.declared.text.TheConstants.{ROW_BYTES};

use crate::event::Event;
use crate::origin::{Origin, Origins};
use arrayvec::ArrayVec;
use base::ScheduleLine;
use image::{Image, Text};
use itoa::Buffer;
use machine::{ActorName, Cause, actor_name, exception_name};

/// The most bytes of a row, its end included; of a row with a line of the run, the most that are before that line, or after it.
pub(crate) const ROW_BYTES: usize = 256;

/// The text of a row, or its beginning.
pub(crate) type RowText = ArrayVec<u8, ROW_BYTES>;

// Appends the bytes, for which there is room.
fn put(row: &mut RowText, bytes: &[u8])
    requires { array_vec_len row.old + length bytes.now ≤ ROW_BYTES }
    ensures items { row.new.items ≡ row.old.items ++ bytes.now }
    ensures len { array_vec_len row.new ≡ array_vec_len row.old + length bytes.now }
{
    let _ = row.try_extend_from_slice(bytes);
}

// Appends a count in decimal.
fn put_count(row: &mut RowText, count: u64)
    requires { array_vec_len row.old + 20 ≤ ROW_BYTES }
    ensures items { row.new.items ≡ row.old.items ++ decimal count }
    ensures len { array_vec_len row.new ≤ array_vec_len row.old + 20 }
{
    put(row, Buffer::new().format(count).as_bytes());
}

// Appends a time in decimal.
fn put_time(row: &mut RowText, time: i64)
    requires { array_vec_len row.old + 20 ≤ ROW_BYTES }
    ensures items { row.new.items ≡ row.old.items ++ signed_decimal time }
    ensures len { array_vec_len row.new ≤ array_vec_len row.old + 20 }
{
    put(row, Buffer::new().format(time).as_bytes());
}

// Time, step and task.
fn heading(time: i64, step: u64, task: &[u8]) -> RowText
    requires { length task.now ≤ NAME_LIMIT }
    ensures items { result.items ≡ heading time step task.now }
    ensures len { array_vec_len result ≤ 83 }
{
    let mut row = ArrayVec::new();
    put_time(&mut row, time);
    put(&mut row, b" ");
    put_count(&mut row, step);
    put(&mut row, b" ");
    put(&mut row, task);
    put(&mut row, b" ");
    row
}

// The name of the task of an event, or a dash where it is the clock.
fn task_of(image: &Image, event: &Event) -> ActorName
    ensures same { result.items ≡ task_of (names_of image.now) event.now }
    ensures short { array_vec_len result ≤ NAME_LIMIT }
{
    match event {
        Event::ClockMoves => {
            let mut dash = ArrayVec::new();
            dash.push(b'-');
            dash
        }
        Event::Ready { task }
        | Event::Runs { task, .. }
        | Event::Preempted { task, .. }
        | Event::GivesWay { task, .. }
        | Event::Refused { task, .. }
        | Event::Raises { task, .. }
        | Event::RaisesAtCall { task, .. }
        | Event::Waits { task, .. }
        | Event::Late { task, .. }
        | Event::Reads { task, .. }
        | Event::Wakes { task }
        | Event::Enters { task, .. }
        | Event::Leaves { task, .. }
        | Event::Queues { task, .. }
        | Event::Served { task, .. }
        | Event::Returns { task, .. }
        | Event::HasWaited { task, .. }
        | Event::Ends { task }
        | Event::Unhandled { task, .. } => actor_name(image, *task),
    }
}

// Appends words and a number behind them.
fn put_with(row: &mut RowText, words: &[u8], number: u8)
    requires { array_vec_len row.old + length words.now + 20 ≤ ROW_BYTES }
    ensures items { row.new.items ≡ row.old.items ++ (words.now ++ decimal number) }
    ensures len { array_vec_len row.new ≤ array_vec_len row.old + length words.now + 20 }
{
    put(row, words);
    put_count(row, u64::from(number));
}

// Appends words and the name of a task behind them.
fn put_named(row: &mut RowText, words: &[u8], name: &[u8])
    requires room { array_vec_len row.old + length words.now + NAME_LIMIT ≤ ROW_BYTES }
    requires name { length name.now ≤ NAME_LIMIT }
    ensures items { row.new.items ≡ row.old.items ++ (words.now ++ name.now) }
    ensures len { array_vec_len row.new ≤ array_vec_len row.old + length words.now + NAME_LIMIT }
{
    put(row, words);
    put(row, name);
}

// Appends words and the name of an exception behind them.
fn put_exception(row: &mut RowText, words: &[u8], image: &Image, exception: u16)
    requires { array_vec_len row.old + length words.now + NAME_LIMIT ≤ ROW_BYTES }
    ensures items { row.new.items ≡ row.old.items ++ (words.now ++ (names_of image.now).exception exception) }
    ensures len { array_vec_len row.new ≤ array_vec_len row.old + length words.now + NAME_LIMIT }
{
    put_named(row, words, exception_name(image.exceptions(), exception));
}

// Appends words and a time behind them.
fn put_until(row: &mut RowText, words: &[u8], time: i64)
    requires { array_vec_len row.old + length words.now + 20 ≤ ROW_BYTES }
    ensures items { row.new.items ≡ row.old.items ++ (words.now ++ signed_decimal time) }
    ensures len { array_vec_len row.new ≤ array_vec_len row.old + length words.now + 20 }
{
    put(row, words);
    put_time(row, time);
}

// Appends the name of an object, or its number where it has none.
fn put_object(row: &mut RowText, objects: &[Text], object: u8)
    requires { array_vec_len row.old + NAME_LIMIT ≤ ROW_BYTES }
    ensures items { row.new.items ≡ row.old.items ++ named_object object (slice_get objects.now object) }
    ensures len { array_vec_len row.new ≤ array_vec_len row.old + NAME_LIMIT }
{
    match objects.get(usize::from(object)) {
        Some(name) => put(row, name.as_bytes()),
        None => put_with(row, b"object ", object),
    }
}

// Appends words and an object behind them.
fn put_at(row: &mut RowText, words: &[u8], objects: &[Text], object: u8)
    requires { array_vec_len row.old + length words.now + NAME_LIMIT ≤ ROW_BYTES }
    ensures items { row.new.items ≡ row.old.items ++ (words.now ++ named_object object (slice_get objects.now object)) }
    ensures len { array_vec_len row.new ≤ array_vec_len row.old + length words.now + NAME_LIMIT }
{
    put(row, words);
    put_object(row, objects, object);
}

// Appends that a task is refused at an object, and why.
fn put_refused(row: &mut RowText, objects: &[Text], object: u8, why: &[u8])
    requires { array_vec_len row.old + 14 + NAME_LIMIT + length why.now ≤ ROW_BYTES }
    ensures items { row.new.items ≡ row.old.items ++ ((codes "is refused at " ++ named_object object (slice_get objects.now object)) ++ why.now) }
    ensures len { array_vec_len row.new ≤ array_vec_len row.old + 14 + NAME_LIMIT + length why.now }
{
    put_at(row, b"is refused at ", objects, object);
    put(row, why);
}

// Appends why Program_Error is raised.
fn put_cause(row: &mut RowText, objects: &[Text], cause: &Cause)
    requires { array_vec_len row.old + 100 ≤ ROW_BYTES }
    ensures items { row.new.items ≡ row.old.items ++ cause_text (λ o. named_object o (slice_get objects.now o)) cause.now }
    ensures len { array_vec_len row.new ≤ array_vec_len row.old + 100 }
{
    match cause {
        Cause::InsideObject { object } => {
            put_refused(row, objects, *object, b": it is inside an action of it");
        }
        Cause::AboveCeiling { object } => {
            put_refused(
                row,
                objects,
                *object,
                b": its priority is above the ceiling",
            );
        }
        Cause::InsideAction { object } => {
            put_refused(row, objects, *object, b": it is inside an action");
        }
        Cause::QueueFull { object } => {
            put_refused(row, objects, *object, b": a call is queued already");
        }
        Cause::MayNotBlock => put(row, b"is refused: it is inside an action"),
    }
}

// Appends words and a line or a column behind them.
fn put_number(row: &mut RowText, words: &[u8], number: usize)
    requires { array_vec_len row.old + length words.now + 20 ≤ ROW_BYTES }
    ensures items { row.new.items ≡ row.old.items ++ (words.now ++ decimal number) }
    ensures len { array_vec_len row.new ≤ array_vec_len row.old + length words.now + 20 }
{
    put(row, words);
    put_count(row, number as u64);
}

// Appends where an instruction comes from, where that is known.
fn put_origin(row: &mut RowText, origin: Option<Origin>)
    requires { array_vec_len row.old + 45 ≤ ROW_BYTES }
    ensures items { row.new.items ≡ row.old.items ++ origin_text origin }
    ensures len { array_vec_len row.new ≤ array_vec_len row.old + 45 }
{
    match origin {
        Some(origin) => {
            put_number(row, b" at ", origin.line);
            put_number(row, b":", origin.column);
        }
        None => {}
    }
}

// Where the instruction of an address comes from, where that is known.
fn origin_at<O: Origins>(origins: &O, address: Option<u16>) -> Option<Origin>
    ensures { result ≡ origin_at (O.known origins.now).origin address }
{
    origins.origin_of(address?)
}

// Appends where the instruction of an address comes from, where that is known.
fn put_place<O: Origins>(
    row: &mut RowText,
    image: &Image,
    objects: &[Text],
    origins: &O,
    address: Option<u16>,
)
    requires { array_vec_len row.old + 45 ≤ ROW_BYTES }
    ensures items { row.new.items ≡ row.old.items ++ place_text (row_names image.now objects.now (O.known origins.now)) address }
    ensures len { array_vec_len row.new ≤ array_vec_len row.old + 45 }
{
    put_origin(row, origin_at(origins, address));
}

// The name of the operation that the instruction of an address calls, where that is known.
fn operation_at<O: Origins>(origins: &O, address: Option<u16>) -> Option<&Text>
    ensures { option_map (λ name. name.now) result ≡ operation_at (O.known origins.now).operation address }
{
    origins.operation_of(address?)
}

// Appends words, an object, and the name of its operation that the instruction of an address calls, where that is known.
fn put_called<O: Origins>(
    row: &mut RowText,
    words: &[u8],
    image: &Image,
    objects: &[Text],
    origins: &O,
    object: u8,
    address: Option<u16>,
)
    requires { array_vec_len row.old + length words.now + 2 * NAME_LIMIT + 1 ≤ ROW_BYTES }
    ensures items { row.new.items ≡ row.old.items ++ ((words.now ++ named_object object (slice_get objects.now object))
        ++ called_text (row_names image.now objects.now (O.known origins.now)) address) }
    ensures len { array_vec_len row.new ≤ array_vec_len row.old + length words.now + 2 * NAME_LIMIT + 1 }
{
    put_at(row, words, objects, object);
    match operation_at(origins, address) {
        Some(name) => put_named(row, b".", name.as_bytes()),
        None => {}
    }
}

// Appends what a task waits for or reads.
fn put_request<O: Origins>(
    row: &mut RowText,
    image: &Image,
    objects: &[Text],
    origins: &O,
    event: &Event,
)
    requires room { array_vec_len row.old ≤ 83 }
    requires kind { is_request event.now ≡ true }
    ensures items { row.new.items ≡ row.old.items ++ event_text (row_names image.now objects.now (O.known origins.now)) event.now }
    ensures len { array_vec_len row.new ≤ array_vec_len row.old + 160 }
{
    match event {
        Event::Waits { until, address, .. } => {
            put_until(row, b"waits until ", *until);
            put_place(row, image, objects, origins, *address);
        }
        Event::Late { by, address, .. } => {
            put(row, b"is late by ");
            put_count(row, *by);
            put_place(row, image, objects, origins, *address);
        }
        Event::Reads {
            channel,
            value,
            address,
            ..
        } => {
            put_until(row, b"reads ", *value);
            put_until(row, b" from ", *channel);
            put_place(row, image, objects, origins, *address);
        }
        _ => unreachable!(),
    }
}

// Appends what a task is refused, or the exception that it has.
fn put_trouble<O: Origins>(
    row: &mut RowText,
    image: &Image,
    objects: &[Text],
    origins: &O,
    event: &Event,
)
    requires room { array_vec_len row.old ≤ 83 }
    requires kind { is_trouble event.now ≡ true }
    ensures items { row.new.items ≡ row.old.items ++ event_text (row_names image.now objects.now (O.known origins.now)) event.now }
    ensures len { array_vec_len row.new ≤ array_vec_len row.old + 160 }
{
    match event {
        Event::Refused { cause, address, .. } => {
            put_cause(row, objects, cause);
            put_place(row, image, objects, origins, *address);
        }
        Event::Raises {
            exception,
            address,
            ..
        } => {
            put_exception(row, b"raises ", image, *exception);
            put_origin(row, origins.origin_of(*address));
        }
        Event::RaisesAtCall {
            exception,
            address,
            ..
        } => {
            put_exception(row, b"raises ", image, *exception);
            put(row, b" at its call");
            put_origin(row, origins.origin_of(*address));
        }
        Event::Unhandled { exception, .. } => {
            put_exception(row, b"is left by ", image, *exception);
        }
        _ => unreachable!(),
    }
}

// Appends which object a task enters or leaves.
fn put_crossing<O: Origins>(
    row: &mut RowText,
    image: &Image,
    objects: &[Text],
    origins: &O,
    event: &Event,
)
    requires room { array_vec_len row.old ≤ 83 }
    requires kind { is_crossing event.now ≡ true }
    ensures items { row.new.items ≡ row.old.items ++ event_text (row_names image.now objects.now (O.known origins.now)) event.now }
    ensures len { array_vec_len row.new ≤ array_vec_len row.old + 160 }
{
    match event {
        Event::Enters {
            object,
            priority,
            address,
            ..
        } => {
            put_called(row, b"enters ", image, objects, origins, *object, *address);
            put_with(row, b" at ", *priority);
            put_place(row, image, objects, origins, *address);
        }
        Event::Leaves {
            object,
            priority,
            address,
            ..
        } => {
            put_at(row, b"leaves ", objects, *object);
            put_with(row, b" at ", *priority);
            put_place(row, image, objects, origins, *address);
        }
        _ => unreachable!(),
    }
}

// Appends what comes of the call of a task.
fn put_service<O: Origins>(
    row: &mut RowText,
    image: &Image,
    objects: &[Text],
    origins: &O,
    event: &Event,
)
    requires room { array_vec_len row.old ≤ 83 }
    requires kind { is_service event.now ≡ true }
    ensures items { row.new.items ≡ row.old.items ++ event_text (row_names image.now objects.now (O.known origins.now)) event.now }
    ensures len { array_vec_len row.new ≤ array_vec_len row.old + 160 }
{
    match event {
        Event::Queues {
            object,
            address,
            ..
        } => {
            put_called(
                row,
                b"queues at ",
                image,
                objects,
                origins,
                *object,
                *address,
            );
            put_place(row, image, objects, origins, *address);
        }
        Event::Served { object, by, .. } => {
            put_at(row, b"is served at ", objects, *object);
            put_named(row, b" by ", actor_name(image, *by).as_slice());
        }
        Event::Returns { object, .. } => put_at(row, b"has been served at ", objects, *object),
        Event::HasWaited { object, time, .. } => {
            put(row, b"has waited ");
            put_count(row, *time);
            put_at(row, b" at ", objects, *object);
        }
        _ => unreachable!(),
    }
}

// Appends what an event is.
fn put_event<O: Origins>(
    row: &mut RowText,
    image: &Image,
    objects: &[Text],
    origins: &O,
    event: &Event,
)
    requires room { array_vec_len row.old ≤ 83 }
    ensures items { row.new.items ≡ row.old.items ++ event_text (row_names image.now objects.now (O.known origins.now)) event.now }
    ensures len { array_vec_len row.new ≤ array_vec_len row.old + 160 }
{
    match event {
        Event::Ready { .. } => put(row, b"is ready"),
        Event::Runs { priority, .. } => put_with(row, b"runs at ", *priority),
        Event::Preempted { by, .. } => {
            put_named(row, b"is preempted by ", actor_name(image, *by).as_slice());
        }
        Event::GivesWay { to, .. } => {
            put_named(row, b"gives way to ", actor_name(image, *to).as_slice());
        }
        Event::Wakes { .. } => put(row, b"wakes"),
        Event::Ends { .. } => put(row, b"ends"),
        Event::ClockMoves => put(row, b"the clock moves"),
        Event::Waits { .. } | Event::Late { .. } | Event::Reads { .. } => put_request(
            row, image, objects, origins, event,
        ),
        Event::Refused { .. }
        | Event::Raises { .. }
        | Event::RaisesAtCall { .. }
        | Event::Unhandled { .. } => put_trouble(row, image, objects, origins, event),
        Event::Enters { .. } | Event::Leaves { .. } => put_crossing(
            row, image, objects, origins, event,
        ),
        Event::Queues { .. }
        | Event::Served { .. }
        | Event::Returns { .. }
        | Event::HasWaited { .. } => put_service(row, image, objects, origins, event),
    }
}

/// The row of an event.
pub(crate) fn event_row<O: Origins>(
    image: &Image,
    objects: &[Text],
    origins: &O,
    time: i64,
    step: u64,
    event: &Event,
) -> RowText
    ensures { result.items ≡ telling_text (row_names image.now objects.now (O.known origins.now)) time step (Shows event.now) }
{
    let mut row = heading(time, step, task_of(image, event).as_slice());
    put_event(&mut row, image, objects, origins, event);
    put(&mut row, b"\n");
    row
}

/// The row of a line of the schedule to which the clock has come.
pub(crate) fn input_row<O: Origins>(
    image: &Image,
    objects: &[Text],
    origins: &O,
    step: u64,
    line: &ScheduleLine,
) -> RowText
    ensures { result.items ≡ telling_text (row_names image.now objects.now (O.known origins.now)) line.now.time step (Comes line.now) }
{
    let mut row = heading(line.time, step, b"-");
    put_with(&mut row, b"line ", line.channel);
    put_until(&mut row, b" ", line.value);
    put(&mut row, b"\n");
    row
}

/// What comes after a line that a task has written, without its line feed.
pub(crate) fn line_end<O: Origins>(
    image: &Image,
    objects: &[Text],
    origins: &O,
    address: Option<u16>,
) -> RowText
    ensures { result.items ≡ place_text (row_names image.now objects.now (O.known origins.now)) address ++ codes "\n" }
{
    let mut row = ArrayVec::new();
    put_place(&mut row, image, objects, origins, address);
    put(&mut row, b"\n");
    row
}

/// A line without the line feed at its end.
pub(crate) fn without_end(line: &[u8]) -> &[u8]
    ensures { result.now ≡ without_end line.now }
{
    &line[..line.len().saturating_sub(1)]
}

/// What comes before a line that a task has written.
pub(crate) fn line_heading(image: &Image, time: i64, step: u64, task: u8) -> RowText
    ensures { result.items ≡ heading time step ((names_of image.now).task task) ++ codes "writes " }
{
    let mut row = heading(time, step, actor_name(image, task).as_slice());
    put(&mut row, b"writes ");
    row
}
