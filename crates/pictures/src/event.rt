//! What is drawn of the events of a trace, and of lines.
ghost use Rattle.std.specs.Prelude.{◌≡◌, ◌<◌, ◌++◌, OnOk};
ghost use Rattle.image.specs.Texts.{names_of};
ghost use Rattle.tracing.specs.Traces as traces;
ghost use Rattle.tracing.specs.Traces.{lines_come};
ghost use Rattle.pictures.specs.Drawn.{inputs_text, reported_text};
ghost use Rattle.pictures.specs.Text.{begun_text, event_text, events_text, flag_text, input_text, picture_names, shape_text};

use crate::element::{add_drawn, add_instant};
use crate::frame::{Frame, Row};
use crate::ink::Ink;
use crate::shape::{Shape, begins_instant, mark_shape, object_shape, state_shape, use_shape};
use crate::title::{input_title, line_title, title_of};
use base::ScheduleLine;
use image::{Image, Text};
use std::alloc::{AllocError, Global};
use tracing::Event;

// Draws a shape, if there is one.
fn add_shape(
    text: &mut Vec<u8>,
    alloc: Global,
    image: &Image,
    names: &[Text],
    frame: Frame,
    shape: Option<Shape>,
    time: u64,
    step: u64,
) -> Result<(), AllocError>
    requires time { 0 < frame.time }
    requires steps { 0 < frame.steps }
    ensures { OnOk result (text.new.items ≡ text.old.items ++ shape_text frame (picture_names image.now names.now) time step shape) }
{
    let Some(shape) = shape else {
        return Ok(());
    };
    let title = title_of(alloc, image, names, shape, time, step)?;
    add_drawn(text, frame, shape.row, shape.ink, time, step, &title)
}

// Draws where an instant begins, if one does.
fn add_begun(
    text: &mut Vec<u8>,
    frame: Frame,
    begins: bool,
    time: u64,
    step: u64,
) -> Result<(), AllocError>
    requires time { 0 < frame.time }
    requires steps { 0 < frame.steps }
    ensures { OnOk result (text.new.items ≡ text.old.items ++ begun_text frame time step begins) }
{
    if begins {
        add_instant(text, frame, time, step)
    } else {
        Ok(())
    }
}

// Draws what there is of an event.
fn add_event(
    text: &mut Vec<u8>,
    alloc: Global,
    image: &Image,
    names: &[Text],
    frame: Frame,
    event: &Event,
    time: u64,
    step: u64,
) -> Result<(), AllocError>
    requires time { 0 < frame.time }
    requires steps { 0 < frame.steps }
    ensures { OnOk result (text.new.items ≡ text.old.items ++ event_text frame (picture_names image.now names.now) time step event.now) }
{
    let state = state_shape(event);
    let mark = mark_shape(event);
    let object = object_shape(event);
    let used = use_shape(event);
    add_shape(text, alloc, image, names, frame, state, time, step)?;
    add_shape(text, alloc, image, names, frame, mark, time, step)?;
    add_shape(text, alloc, image, names, frame, object, time, step)?;
    add_shape(text, alloc, image, names, frame, used, time, step)?;
    add_begun(text, frame, begins_instant(event), time, step)?;
    Ok(())
}

/// Draws what there is of events at a time, in microseconds, and with a step of the run.
///
/// # Errors
/// Where memory was refused.
pub(crate) fn add_events(
    text: &mut Vec<u8>,
    alloc: Global,
    image: &Image,
    names: &[Text],
    frame: Frame,
    events: &[Event],
    time: u64,
    step: u64,
) -> Result<(), AllocError>
    requires time { 0 < frame.time }
    requires steps { 0 < frame.steps }
    ensures { OnOk result (text.new.items ≡ text.old.items ++ events_text frame (picture_names image.now names.now) time step events.now) }
{
    for event in events {
        add_event(text, alloc, image, names, frame, event, time, step)?;
    }
    Ok(())
}

// A line without the line feed at its end.
pub(crate) fn without_end(line: &[u8]) -> &[u8]
    ensures { result.now ≡ traces.without_end line.now }
{
    &line[..line.len().saturating_sub(1)]
}

// Draws the flag of a line.
fn add_flag(
    text: &mut Vec<u8>,
    alloc: Global,
    image: &Image,
    frame: Frame,
    task: u8,
    line: &[u8],
    time: u64,
    step: u64,
) -> Result<(), AllocError>
    requires time { 0 < frame.time }
    requires steps { 0 < frame.steps }
    ensures { OnOk result (text.new.items ≡ text.old.items ++ flag_text frame (names_of image.now) task line.now time step) }
{
    let title = line_title(alloc, image, task, line, time, step)?;
    add_drawn(text, frame, Row::Actor(task), Ink::Line, time, step, &title)
}

/// Draws the flag of the line that a step of a task has written, if it has.
///
/// # Errors
/// Where memory was refused.
pub(crate) fn add_reported(
    text: &mut Vec<u8>,
    alloc: Global,
    image: &Image,
    frame: Frame,
    task: u8,
    shown: &machine::Event,
    time: u64,
    step: u64,
) -> Result<(), AllocError>
    requires time { 0 < frame.time }
    requires steps { 0 < frame.steps }
    ensures { OnOk result (text.new.items ≡ text.old.items ++ reported_text frame (names_of image.now) task time step shown.now) }
{
    match shown {
        machine::Event::Line(line) => {
            let line = without_end(line.as_slice());
            add_flag(text, alloc, image, frame, task, line, time, step)
        }
        machine::Event::Quiet | machine::Event::Done(_) => Ok(()),
    }
}

// Draws a line of the schedule.
fn add_input(
    text: &mut Vec<u8>,
    alloc: Global,
    frame: Frame,
    line: &ScheduleLine,
    step: u64,
) -> Result<(), AllocError>
    requires time { 0 < frame.time }
    requires steps { 0 < frame.steps }
    ensures { OnOk result (text.new.items ≡ text.old.items ++ input_text frame line.now step) }
{
    let title = input_title(alloc, line, step)?;
    let time = line.time.unsigned_abs();
    add_drawn(text, frame, Row::Inputs, Ink::Input, time, step, &title)
}

// Whether the clock, which was at `since`, has come to a line of the schedule.
fn has_come(since: Option<i64>, now: i64, line: &ScheduleLine) -> bool
    ensures { result ≡ traces.has_come since now line.now }
{
    match since {
        None => line.time <= now,
        Some(since) => since < line.time && line.time <= now,
    }
}

/// Draws the lines of the schedule to which the clock has come.
///
/// # Errors
/// Where memory was refused.
pub(crate) fn add_inputs(
    text: &mut Vec<u8>,
    alloc: Global,
    frame: Frame,
    lines: &[ScheduleLine],
    since: Option<i64>,
    now: i64,
    step: u64,
) -> Result<(), AllocError>
    requires time { 0 < frame.time }
    requires steps { 0 < frame.steps }
    ensures { OnOk result (text.new.items ≡ text.old.items ++ inputs_text frame step (lines_come since now lines.now)) }
{
    for line in lines {
        if has_come(since, now, line) {
            add_input(text, alloc, frame, line, step)?;
        }
    }
    Ok(())
}
