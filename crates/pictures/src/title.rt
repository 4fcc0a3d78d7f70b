//! The titles of what is drawn, which browsers show where the pointer is.
ghost use Rattle.std.specs.Prelude.{◌≡◌, ◌++◌, IfOk, None, OnOk, codes};
ghost use Rattle.image.specs.Texts.{names_of};
ghost use Rattle.tracing.specs.Traces.{named_object};
ghost use Rattle.pictures.specs.Text as texts;
ghost use Rattle.pictures.specs.Text.{detail_text, escaped, escaped_byte, input_title, milliseconds, moment_text, picture_names, title_text};

use crate::element::{add_milliseconds, add_number};
use crate::ink::Ink;
use crate::shape::{Detail, Shape};
use base::ScheduleLine;
use base::names::is_name;
use image::{Image, Text};
use itoa::Buffer;
use machine::{actor_name, exception_name};
use std::alloc::{AllocError, Global};

// Appends the number of an object.
fn add_object_number(text: &mut Vec<u8>, object: u8) -> Result<(), AllocError>
    ensures { OnOk result (text.new.items ≡ text.old.items ++ named_object object None) }
{
    text.extend_from_slice(b"object ")?;
    add_number(text, u64::from(object))?;
    Ok(())
}

/// Appends the name of an object, or its number where it has none that Ada allows.
///
/// # Errors
/// Where memory was refused.
pub(crate) fn add_object_name(
    text: &mut Vec<u8>,
    names: &[Text],
    object: u8,
) -> Result<(), AllocError>
    ensures { OnOk result (text.new.items ≡ text.old.items ++ texts.object_name names.now object) }
{
    match names.get(usize::from(object)) {
        Some(name) if is_name(name.as_bytes()) => {
            text.extend_from_slice(name.as_bytes())?;
            Ok(())
        }
        _ => add_object_number(text, object),
    }
}

// Appends a time, given in microseconds, with its unit.
fn add_time(text: &mut Vec<u8>, time: u64) -> Result<(), AllocError>
    ensures { OnOk result (text.new.items ≡ text.old.items ++ (milliseconds time ++ codes " ms")) }
{
    add_milliseconds(text, time)?;
    text.extend_from_slice(b" ms")?;
    Ok(())
}

// Appends a detail.
fn add_detail(
    text: &mut Vec<u8>,
    image: &Image,
    names: &[Text],
    detail: Detail,
) -> Result<(), AllocError>
    ensures { OnOk result (text.new.items ≡ text.old.items ++ detail_text (picture_names image.now names.now) detail) }
{
    match detail {
        Detail::Nothing => Ok(()),
        Detail::Time(time) => add_time(text, time.unsigned_abs()),
        Detail::Span(time) => add_time(text, time),
        Detail::Object(object) => add_object_name(text, names, object),
        Detail::Actor(actor) => {
            text.extend_from_slice(actor_name(image, actor).as_slice())?;
            Ok(())
        }
        Detail::Exception(exception) => {
            text.extend_from_slice(exception_name(image.exceptions(), exception))?;
            Ok(())
        }
    }
}

// Appends when something happens: the time, in microseconds, and with which step.
fn add_moment(text: &mut Vec<u8>, time: u64, step: u64) -> Result<(), AllocError>
    ensures { OnOk result (text.new.items ≡ text.old.items ++ moment_text time step) }
{
    text.extend_from_slice(b" at ")?;
    add_milliseconds(text, time)?;
    text.extend_from_slice(b" ms, step ")?;
    add_number(text, step)?;
    Ok(())
}

/// The title of a shape.
///
/// # Errors
/// Where memory was refused.
pub(crate) fn title_of(
    alloc: Global,
    image: &Image,
    names: &[Text],
    shape: Shape,
    time: u64,
    step: u64,
) -> Result<Vec<u8>, AllocError>
    ensures { IfOk result (λ title. title.items ≡ title_text (picture_names image.now names.now) shape time step) }
{
    let mut title = Vec::from_slice(alloc, actor_name(image, shape.actor).as_slice())?;
    title.extend_from_slice(b" ")?;
    title.extend_from_slice(shape.ink.words())?;
    add_detail(&mut title, image, names, shape.detail)?;
    add_moment(&mut title, time, step)?;
    Ok(title)
}

// Appends a byte as XML has it.
fn add_escaped_byte(text: &mut Vec<u8>, byte: u8) -> Result<(), AllocError>
    ensures { OnOk result (text.new.items ≡ text.old.items ++ escaped_byte byte) }
{
    match byte {
        b'&' => text.extend_from_slice(b"&amp;")?,
        b'<' => text.extend_from_slice(b"&lt;")?,
        b'>' => text.extend_from_slice(b"&gt;")?,
        _ => text.push(byte)?,
    }
    Ok(())
}

// Appends a line as XML has it.
fn add_escaped(text: &mut Vec<u8>, line: &[u8]) -> Result<(), AllocError>
    ensures { OnOk result (text.new.items ≡ text.old.items ++ escaped line.now) }
{
    for byte in line {
        add_escaped_byte(text, *byte)?;
    }
    Ok(())
}

/// The title of a line that a task has written.
///
/// # Errors
/// Where memory was refused.
pub(crate) fn line_title(
    alloc: Global,
    image: &Image,
    task: u8,
    line: &[u8],
    time: u64,
    step: u64,
) -> Result<Vec<u8>, AllocError>
    ensures { IfOk result (λ title. title.items ≡ texts.line_title (names_of image.now) task line.now time step) }
{
    let mut title = Vec::from_slice(alloc, actor_name(image, task).as_slice())?;
    title.extend_from_slice(b" ")?;
    title.extend_from_slice(Ink::Line.words())?;
    add_escaped(&mut title, line)?;
    add_moment(&mut title, time, step)?;
    Ok(title)
}

/// The title of a line of the schedule.
///
/// # Errors
/// Where memory was refused.
pub(crate) fn input_title(
    alloc: Global,
    line: &ScheduleLine,
    step: u64,
) -> Result<Vec<u8>, AllocError>
    ensures { IfOk result (λ title. title.items ≡ input_title line.now step) }
{
    let mut title = Vec::from_slice(alloc, Ink::Input.words())?;
    add_number(&mut title, u64::from(line.channel))?;
    title.extend_from_slice(b" ")?;
    title.extend_from_slice(Buffer::new().format(line.value).as_bytes())?;
    add_moment(&mut title, line.time.unsigned_abs(), step)?;
    Ok(title)
}
