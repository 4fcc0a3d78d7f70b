//! The text of lines and outcomes (docs/FORMATS.md, "Output").
ghost use Rattle.std.specs.Prelude.{◌≡◌, ◌+◌, ◌-◌, ◌≤◌, ◌++◌, codes, length, slice_get};
ghost use Rattle.std.specs.Fmt.{signed_decimal};
ghost use Rattle.arrayvec.specs.ArrayVec.{array_vec_len};
ghost use Rattle.base.specs.declared.limits.TheConstants.{NAME_LIMIT};
ghost use Rattle.image.specs.Texts.{name_of, names_of, text_at, text_from_one};
ghost use Rattle.kernel.specs.Text.{last_line, line_text, outcome_text};
ghost use Rattle.execution.specs.Held.{line_of};
ghost use Rattle.machine.specs.Bounds.{cut_line};
ghost use Rattle.machine.specs.Outcomes.{ending_of, time_of};
ghost use Rattle.machine.specs.declared.reports.TheConstants.{LINE_BYTES};

use crate::bound::Cut;
use crate::reports::{LineText, Outcome};
use arrayvec::ArrayVec;
use base::limits::NAME_LIMIT;
use execution::Line;
use image::{Image, Task, Text};
use image_laws::code_leads_on;
use itoa::Buffer;

// Appends the bytes, for which there is room.
fn put(line: &mut LineText, bytes: &[u8])
    requires { array_vec_len line.old + length bytes.now ≤ LINE_BYTES }
    ensures items { line.new.items ≡ line.old.items ++ bytes.now }
    ensures len { array_vec_len line.new ≡ array_vec_len line.old + length bytes.now }
{
    let _ = line.try_extend_from_slice(bytes);
}

// Appends the number in decimal.
fn put_number(line: &mut LineText, number: i64)
    requires { array_vec_len line.old + 20 ≤ LINE_BYTES }
    ensures items { line.new.items ≡ line.old.items ++ signed_decimal number }
    ensures len { array_vec_len line.new ≤ array_vec_len line.old + 20 }
{
    put(line, Buffer::new().format(number).as_bytes());
}

// The bytes of the text with this number, or none where there isn't one.
fn text_at(texts: &[Text], number: usize) -> &[u8]
    ensures same { result.now ≡ text_at texts.now number }
    ensures short { length result.now ≤ NAME_LIMIT }
{
    match texts.get(number) {
        None => &[],
        Some(text) => text.as_bytes(),
    }
}

/// The label with this number of an image, or none where there is no such label.
pub fn label(image: &Image, number: u16) -> &[u8]
    ensures same { result.now ≡ text_at image.now.labels number }
    ensures short { length result.now ≤ NAME_LIMIT }
{
    text_at(image.labels(), usize::from(number))
}

/// The name of an exception among those of an image, counted from 1; number 0 has none.
pub fn exception_name(texts: &[Text], number: u16) -> &[u8]
    ensures same { result.now ≡ text_from_one texts.now number }
    ensures short { length result.now ≤ NAME_LIMIT }
{
    match number.checked_sub(1) {
        None => &[],
        Some(number) => text_at(texts, usize::from(number)),
    }
}

/// The name of a task among those of an image, or none where there is no such task.
pub fn task_name(tasks: &[Task], number: u8) -> &[u8]
    ensures same { result.now ≡ name_of (slice_get tasks.now number) }
    ensures short { length result.now ≤ NAME_LIMIT }
{
    match tasks.get(usize::from(number)) {
        None => &[],
        Some(task) => task.name.as_bytes(),
    }
}

/// A name of a task or of the handler of an interrupt.
pub type ActorName = ArrayVec<u8, NAME_LIMIT>;

/// The name of a task, or of the handler of an interrupt (RM C.3.1), by the number that its lines have.
pub fn actor_name(image: &Image, number: u8) -> ActorName
    ensures same { result.items ≡ (names_of image.now).task number }
    ensures short { array_vec_len result ≤ NAME_LIMIT }
{
    code_leads_on();
    let tasks = image.tasks();
    let mut name = ArrayVec::new();
    if usize::from(number) < tasks.len() {
        let _ = name.try_extend_from_slice(task_name(tasks, number));
    } else {
        let channel = number - tasks.len() as u8;
        let _ = name.try_extend_from_slice(b"INTERRUPT_");
        let _ = name.try_extend_from_slice(Buffer::new().format(channel).as_bytes());
    }
    name
}

// Appends the name of a task, or of the handler of an interrupt (RM C.3.1).
fn put_actor(line: &mut LineText, image: &Image, task: u8)
    requires { array_vec_len line.old + NAME_LIMIT ≤ LINE_BYTES }
    ensures items { line.new.items ≡ line.old.items ++ (names_of image.now).task task }
    ensures len { array_vec_len line.new ≤ array_vec_len line.old + NAME_LIMIT }
{
    put(line, actor_name(image, task).as_slice());
}

/// The text of a line of the image.
pub(crate) fn line_text(image: &Image, line: &Line) -> LineText
    ensures { result.items ≡ line_text (names_of image.now) (line_of image.now line.now) }
{
    let mut text = ArrayVec::new();
    put_number(&mut text, line.time);
    put(&mut text, b" ");
    put_actor(&mut text, image, line.task);
    put(&mut text, b" ");
    put(&mut text, label(image, line.label));
    put(&mut text, b" ");
    put_number(&mut text, line.value);
    put(&mut text, b"\n");
    text
}

/// The text of the last line of a run of the image.
pub fn last_line(image: &Image, outcome: &Outcome) -> LineText
    ensures { result.items ≡ last_line (names_of image.now) (ending_of outcome.now) (time_of outcome.now) }
{
    let mut text = ArrayVec::new();
    let time = match outcome {
        Outcome::Ended { time } => {
            put(&mut text, b"ended");
            time
        }
        Outcome::WaitsForever { time } => {
            put(&mut text, b"waits forever");
            time
        }
        Outcome::Unhandled {
            exception,
            task,
            time,
        } => {
            put(&mut text, b"unhandled ");
            put(&mut text, exception_name(image.exceptions(), *exception));
            put(&mut text, b" in ");
            put_actor(&mut text, image, *task);
            time
        }
        Outcome::ImageFault { time } => {
            put(&mut text, b"image fault");
            time
        }
        Outcome::StepLimit { time } => {
            put(&mut text, b"step limit");
            time
        }
    };
    put(&mut text, b" at ");
    put_number(&mut text, *time);
    put(&mut text, b"\n");
    text
}

// The last line of a run that a time has cut.
fn time_line(time: i64) -> LineText
    ensures { result.items ≡ codes "time limit" ++ codes " at " ++ signed_decimal time ++ codes "\n" }
{
    let mut text = ArrayVec::new();
    put(&mut text, b"time limit");
    put(&mut text, b" at ");
    put_number(&mut text, time);
    put(&mut text, b"\n");
    text
}

/// The text of the last line of a run of the image, where this cuts it if it has come to no outcome.
pub fn cut_line(image: &Image, outcome: &Outcome, cut: Cut) -> LineText
    ensures { result.items ≡ cut_line cut (names_of image.now) (ending_of outcome.now) (time_of outcome.now) }
{
    match cut {
        Cut::Steps => last_line(image, outcome),
        Cut::Time => match outcome {
            Outcome::StepLimit { time } => time_line(*time),
            Outcome::Ended { .. }
            | Outcome::WaitsForever { .. }
            | Outcome::Unhandled { .. }
            | Outcome::ImageFault { .. } => last_line(image, outcome),
        },
    }
}
