//! The text of each row of measures (docs/FORMATS.md, "Measures").
ghost use Rattle.std.specs.Prelude.{◌≡◌, ◌+◌, ◌≤◌, ◌++◌, codes, length, slice_get, ℕ};
ghost use Rattle.std.specs.Fmt.{signed_decimal};
ghost use Rattle.arrayvec.specs.ArrayVec.{array_vec_len};
ghost use Rattle.base.specs.declared.limits.TheConstants.{NAME_LIMIT};
ghost use Rattle.tracing.specs.Traces.{named_object};
ghost use Rattle.measuring.specs.Text as texts;
ghost use Rattle.measuring.specs.Text.{blocking_in, cell, frames_row, gap, instants_row, jobs_text, kind, least_text, shown_frames, shown_object, shown_usage, shown_wait, shown_work, spaces, times_text, usage_row, wait_row, work_row};
ghost use Rattle.measuring.specs.declared.row_text.TheConstants.{ROW_BYTES};

use crate::actor::ActorMeasures;
use crate::blocking::{base_priority, ceiling};
use crate::instants::Instants;
use crate::object::ObjectMeasures;
use crate::text::Form;
use crate::usage::UsageMeasures;
use arrayvec::ArrayVec;
use base::limits::NAME_LIMIT;
use image::{Image, Text};
use itoa::Buffer;
use machine::actor_name;

/// The most bytes of a row, its end included.
pub const ROW_BYTES: usize = 320;

/// The text of one row.
pub type RowText = ArrayVec<u8, ROW_BYTES>;

/// Appends the bytes, for which there is room.
pub fn put(row: &mut RowText, bytes: &[u8])
    requires { array_vec_len row.old + length bytes.now ≤ ROW_BYTES }
    ensures items { row.new.items ≡ row.old.items ++ bytes.now }
    ensures len { array_vec_len row.new ≡ array_vec_len row.old + length bytes.now }
{
    let _ = row.try_extend_from_slice(bytes);
}

// Appends so many spaces.
fn put_spaces(row: &mut RowText, count: usize)
    requires { array_vec_len row.old + count ≤ ROW_BYTES }
    ensures items { row.new.items ≡ row.old.items ++ spaces count }
    ensures len { array_vec_len row.new ≡ array_vec_len row.old + count }
{
    let mut added = 0;
    while added < count {
        put(row, b" ");
        added += 1;
    }
}

// Appends the text of a column or a field.
fn put_cell(row: &mut RowText, form: Form, cell: &[u8])
    requires room { array_vec_len row.old + 21 ≤ ROW_BYTES }
    requires short { length cell.now ≤ 20 }
    ensures items { row.new.items ≡ row.old.items ++ texts.cell form cell.now }
    ensures len { array_vec_len row.new ≤ array_vec_len row.old + 21 }
{
    match form {
        Form::Table => {
            put_spaces(row, 9usize.saturating_sub(cell.len()));
            put(row, cell);
            put(row, b" ");
        }
        Form::Fields => {
            put(row, cell);
            put(row, b"\t");
        }
    }
}

/// Appends a number, as a column or as a field.
pub fn put_number(row: &mut RowText, form: Form, number: u64)
    requires { array_vec_len row.old + 21 ≤ ROW_BYTES }
    ensures items { row.new.items ≡ row.old.items ++ texts.number form number }
    ensures len { array_vec_len row.new ≤ array_vec_len row.old + 21 }
{
    put_cell(row, form, Buffer::new().format(number).as_bytes());
}

// Appends the least of some numbers, or a dash where there is none.
fn put_least(row: &mut RowText, form: Form, least: Option<u64>)
    requires { array_vec_len row.old + 21 ≤ ROW_BYTES }
    ensures items { row.new.items ≡ row.old.items ++ cell form (least_text least) }
    ensures len { array_vec_len row.new ≤ array_vec_len row.old + 21 }
{
    match least {
        Some(least) => put_number(row, form, least),
        None => put_cell(row, form, b"-"),
    }
}

/// What a row is about, where it has fields, and its first number.
pub fn begun(form: Form, word: &[u8], first: u64) -> RowText
    requires { length word.now ≤ 8 }
    ensures items { result.items ≡ kind form word.now ++ texts.number form first }
    ensures len { array_vec_len result ≤ 30 }
{
    let mut row = ArrayVec::new();
    match form {
        Form::Table => {}
        Form::Fields => {
            put(&mut row, word);
            put(&mut row, b"\t");
        }
    }
    put_number(&mut row, form, first);
    row
}

// Appends what is measured of jobs and steps.
fn put_jobs(row: &mut RowText, form: Form, measures: &ActorMeasures)
    requires { array_vec_len row.old + 105 ≤ ROW_BYTES }
    ensures items { row.new.items ≡ row.old.items ++ jobs_text form measures.now }
    ensures len { array_vec_len row.new ≤ array_vec_len row.old + 105 }
{
    put_number(row, form, measures.jobs);
    put_number(row, form, measures.steps);
    put_least(row, form, measures.shortest_job);
    put_number(row, form, measures.longest_job);
    put_number(row, form, measures.response);
}

// Appends two numbers.
fn put_two(row: &mut RowText, form: Form, first: u64, second: u64)
    requires { array_vec_len row.old + 42 ≤ ROW_BYTES }
    ensures items { row.new.items ≡ row.old.items ++ (texts.number form first ++ texts.number form second) }
    ensures len { array_vec_len row.new ≤ array_vec_len row.old + 42 }
{
    put_number(row, form, first);
    put_number(row, form, second);
}

// Appends what is measured of lateness and of releases.
fn put_times(row: &mut RowText, form: Form, measures: &ActorMeasures)
    requires { array_vec_len row.old + 63 ≤ ROW_BYTES }
    ensures items { row.new.items ≡ row.old.items ++ times_text form measures.now }
    ensures len { array_vec_len row.new ≤ array_vec_len row.old + 63 }
{
    put_number(row, form, measures.late);
    put_number(row, form, measures.latest);
    put_least(row, form, measures.least_apart);
}

/// Appends the name with which a row ends.
pub fn put_name(row: &mut RowText, name: &[u8])
    requires { array_vec_len row.old + length name.now + 1 ≤ ROW_BYTES }
    ensures items { row.new.items ≡ row.old.items ++ (name.now ++ codes "\n") }
{
    put(row, name);
    put(row, b"\n");
}

// Appends a name after which another one comes.
fn put_first_name(row: &mut RowText, form: Form, name: &[u8])
    requires { array_vec_len row.old + length name.now + 1 ≤ ROW_BYTES }
    ensures items { row.new.items ≡ row.old.items ++ (name.now ++ gap form) }
    ensures len { array_vec_len row.new ≡ array_vec_len row.old + length name.now + 1 }
{
    put(row, name);
    match form {
        Form::Table => put(row, b" "),
        Form::Fields => put(row, b"\t"),
    }
}

// The row of the work of a task or handler.
fn work_row(
    form: Form,
    priority: u8,
    blocking: u64,
    name: &[u8],
    measures: &ActorMeasures,
) -> RowText
    requires { length name.now ≤ NAME_LIMIT }
    ensures { result.items ≡ work_row form priority blocking name.now measures.now }
{
    let mut row = begun(form, b"task", u64::from(priority));
    put_jobs(&mut row, form, measures);
    put_two(&mut row, form, blocking, measures.preempted);
    put_name(&mut row, name);
    row
}

// The row of the waiting of a task or handler.
fn wait_row(form: Form, name: &[u8], measures: &ActorMeasures) -> RowText
    requires { length name.now ≤ NAME_LIMIT }
    ensures { result.items ≡ wait_row form name.now measures.now }
{
    let mut row = begun(form, b"wait", measures.waits);
    put_two(&mut row, form, measures.longest_wait, measures.total_wait);
    put_times(&mut row, form, measures);
    put_name(&mut row, name);
    row
}

// The row of the frames of a task or handler, of which so many count to their limit.
fn frames_row(form: Form, frames: u64, name: &[u8], measures: &ActorMeasures) -> RowText
    requires { length name.now ≤ NAME_LIMIT }
    ensures { result.items ≡ frames_row form frames name.now measures.now }
{
    let mut row = begun(form, b"frames", frames);
    put_number(&mut row, form, measures.widest);
    put_name(&mut row, name);
    row
}

/// The row of the work of a task, or of a handler, where that has run; there are so many tasks, and so much keeps this one waiting.
pub(crate) fn shown_work(
    form: Form,
    image: &Image,
    tasks: u8,
    actor: u8,
    blocking: u64,
    measures: &ActorMeasures,
) -> RowText
    requires { tasks ≡ length image.now.tasks }
    ensures { (actors : ℕ → ActorMeasures) (usage : ℕ → ℕ → UsageMeasures) → measures.now ≡ actors actor → blocking ≡ blocking_in image.now usage actor →
        result.items ≡ shown_work form image.now actors usage actor }
{
    if tasks <= actor && measures.jobs == 0 {
        return ArrayVec::new();
    }
    let name = actor_name(image, actor);
    let priority = base_priority(image, actor);
    work_row(form, priority, blocking, name.as_slice(), measures)
}

/// The row of the waiting of a task, or of a handler, where that has run; there are so many tasks.
pub(crate) fn shown_wait(
    form: Form,
    image: &Image,
    tasks: u8,
    actor: u8,
    measures: &ActorMeasures,
) -> RowText
    requires { tasks ≡ length image.now.tasks }
    ensures { (actors : ℕ → ActorMeasures) → measures.now ≡ actors actor → result.items ≡ shown_wait form image.now actors actor }
{
    if tasks <= actor && measures.jobs == 0 {
        return ArrayVec::new();
    }
    wait_row(form, actor_name(image, actor).as_slice(), measures)
}

/// The row of the frames of a task, or of a handler, where that has run; there are so many tasks.
pub(crate) fn shown_frames(
    form: Form,
    image: &Image,
    tasks: u8,
    actor: u8,
    measures: &ActorMeasures,
) -> RowText
    requires { tasks ≡ length image.now.tasks }
    ensures { (actors : ℕ → ActorMeasures) → measures.now ≡ actors actor → result.items ≡ shown_frames form image.now actors actor }
{
    if tasks <= actor && measures.jobs == 0 {
        return ArrayVec::new();
    }
    let frames = if actor < tasks {
        measures.deepest.saturating_add(1)
    } else {
        measures.deepest
    };
    frames_row(form, frames, actor_name(image, actor).as_slice(), measures)
}

/// The name of an object, or its number where it has none.
pub fn object_name(names: &[Text], object: u8) -> ArrayVec<u8, NAME_LIMIT>
    ensures { result.items ≡ named_object object (slice_get names.now object) }
{
    let mut text = ArrayVec::new();
    match names.get(usize::from(object)) {
        Some(name) => {
            let _ = text.try_extend_from_slice(name.as_bytes());
        }
        None => {
            let _ = text.try_extend_from_slice(b"object ");
            let _ = text.try_extend_from_slice(Buffer::new().format(object).as_bytes());
        }
    }
    text
}

/// The row of an object.
pub(crate) fn object_row(
    form: Form,
    image: &Image,
    names: &[Text],
    object: u8,
    measures: &ObjectMeasures,
) -> RowText
    ensures { (objects : ℕ → ObjectMeasures) → measures.now ≡ objects object → result.items ≡ shown_object form image.now names.now objects object }
{
    let mut row = begun(form, b"object", u64::from(ceiling(image, object)));
    put_number(&mut row, form, measures.calls);
    put_number(&mut row, form, measures.queued);
    put_name(&mut row, object_name(names, object).as_slice());
    row
}

// The row of a task or handler at an object.
fn usage_row(form: Form, task: &[u8], object: &[u8], measures: &UsageMeasures) -> RowText
    requires task { length task.now ≤ NAME_LIMIT }
    requires object { length object.now ≤ NAME_LIMIT }
    ensures { result.items ≡ usage_row form task.now object.now measures.now }
{
    let mut row = begun(form, b"inside", measures.calls);
    put_number(&mut row, form, measures.longest_action);
    put_first_name(&mut row, form, task);
    put_name(&mut row, object);
    row
}

/// The row of a task or handler at an object, where it has called the object or has been inside.
pub(crate) fn shown_usage(
    form: Form,
    image: &Image,
    names: &[Text],
    actor: u8,
    object: u8,
    measures: &UsageMeasures,
) -> RowText
    ensures { (usage : ℕ → ℕ → UsageMeasures) → measures.now ≡ usage actor object → result.items ≡ shown_usage form image.now names.now usage actor object }
{
    if measures.calls == 0 && measures.longest_action == 0 {
        return ArrayVec::new();
    }
    let task = actor_name(image, actor);
    let name = object_name(names, object);
    usage_row(form, task.as_slice(), name.as_slice(), measures)
}

/// The row of instants.
pub(crate) fn instants_row(form: Form, instants: Instants) -> RowText
    ensures { result.items ≡ instants_row form instants }
{
    let mut row = ArrayVec::new();
    match form {
        Form::Table => {}
        Form::Fields => put(&mut row, b"instant\t"),
    }
    put_number(&mut row, form, instants.most);
    put(&mut row, Buffer::new().format(instants.time).as_bytes());
    put(&mut row, b"\n");
    row
}
