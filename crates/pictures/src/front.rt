//! What is drawn before a run: the names of rows, the axes and the legend.
ghost use Rattle.std.specs.Prelude.{◌≡◌, ◌+◌, ◌*◌, ◌<◌, ◌≤◌, ◌++◌, OnOk, slice_get};
ghost use Rattle.base.specs.declared.limits.TheConstants.{TASKS};
ghost use Rattle.image.specs.Texts.{names_of};
ghost use Rattle.pictures.specs.Front as fronts;
ghost use Rattle.pictures.specs.Front.{below, end_text, front_text, heading_text, label_text, lane_text, last_text, named_row, named_rows, opening_text, part_text, tick_label, tick_line, tick_name, tick_text, ticks_text, time_label};
ghost use Rattle.pictures.specs.Text.{object_name, picture_names};

use crate::element::{add_instant, add_milliseconds, add_number, add_place};
use crate::event::without_end;
use crate::frame::{Axis, Frame};
use crate::spacing::{TICKS, spacing_of};
use crate::style::STYLE;
use crate::title::add_object_name;
use image::{Image, Text};
use machine::actor_name;
use std::alloc::{AllocError, Global};

impl Frame {
    /// How high the picture is, in tenths of a pixel.
    pub(crate) fn height(self) -> u64
        ensures is { result ≡ fronts.height self }
        ensures high { 1_000 ≤ result }
    {
        self.bottom(Axis::Steps) + 700
    }

    // Where the labels of an axis are.
    fn label_y(self, axis: Axis) -> u64
        ensures { result ≡ fronts.label_y self axis }
    {
        match axis {
            Axis::Time => self.top(Axis::Time) - 60,
            Axis::Steps => self.bottom(Axis::Steps) + 150,
        }
    }
}

// Appends the beginning of the file.
fn add_opening(text: &mut Vec<u8>, height: u64) -> Result<(), AllocError>
    ensures { OnOk result (text.new.items ≡ text.old.items ++ opening_text height) }
{
    text.extend_from_slice(b"<svg xmlns=\"http://www.w3.org/2000/svg\" viewBox=\"0 0 17100 ")?;
    add_number(text, height)?;
    text.extend_from_slice(b"\" width=\"1710\" height=\"")?;
    add_number(text, height / 10)?;
    text.extend_from_slice(b"\">\n")?;
    Ok(())
}

// Appends the ground of a row.
fn add_lane(text: &mut Vec<u8>, y: u64) -> Result<(), AllocError>
    ensures { OnOk result (text.new.items ≡ text.old.items ++ lane_text y) }
{
    text.extend_from_slice(b"<path class=\"row\" d=\"M2800 ")?;
    add_number(text, y)?;
    text.extend_from_slice(b"H16800\"/>\n")?;
    Ok(())
}

// Appends the name of a row.
fn add_label(text: &mut Vec<u8>, y: u64, name: &[u8]) -> Result<(), AllocError>
    ensures { OnOk result (text.new.items ≡ text.old.items ++ label_text y name.now) }
{
    text.extend_from_slice(b"<text class=\"name\" x=\"2700\" y=\"")?;
    add_number(text, y)?;
    text.extend_from_slice(b"\">")?;
    text.extend_from_slice(name)?;
    text.extend_from_slice(b"</text>\n")?;
    Ok(())
}

// Draws an empty row.
fn add_row(
    text: &mut Vec<u8>,
    frame: Frame,
    axis: Axis,
    row: u64,
    name: &[u8],
) -> Result<(), AllocError>
    requires { row ≤ 1000 }
    ensures { OnOk result (text.new.items ≡ text.old.items ++ named_row frame axis row name.now) }
{
    add_lane(text, frame.y(axis, row, 250))?;
    add_label(text, frame.y(axis, row, 290), name)?;
    Ok(())
}

// Draws the empty rows of the tasks.
fn add_tasks(text: &mut Vec<u8>, image: &Image, frame: Frame, axis: Axis) -> Result<(), AllocError>
    ensures { OnOk result (text.new.items ≡ text.old.items
        ++ below frame.tasks (λ t. named_row frame axis t ((names_of image.now).task t))) }
{
    for task in 0..frame.tasks {
        let name = actor_name(image, task);
        add_row(text, frame, axis, u64::from(task), name.as_slice())?;
    }
    Ok(())
}

// Draws the empty rows of the objects.
fn add_objects(
    text: &mut Vec<u8>,
    alloc: Global,
    names: &[Text],
    frame: Frame,
    axis: Axis,
) -> Result<(), AllocError>
    ensures { OnOk result (text.new.items ≡ text.old.items
        ++ below frame.objects (λ o. named_row frame axis (frame.tasks + o) (object_name names.now o))) }
{
    for object in 0..frame.objects {
        let mut name = Vec::new(alloc);
        add_object_name(&mut name, names, object)?;
        let row = u64::from(frame.tasks) + u64::from(object);
        add_row(text, frame, axis, row, &name)?;
    }
    Ok(())
}

// Draws the empty rows of a part.
fn add_rows(
    text: &mut Vec<u8>,
    alloc: Global,
    image: &Image,
    names: &[Text],
    frame: Frame,
    axis: Axis,
) -> Result<(), AllocError>
    ensures { OnOk result (text.new.items ≡ text.old.items ++ named_rows frame (picture_names image.now names.now) axis) }
{
    let last = u64::from(frame.tasks) + u64::from(frame.objects);
    add_tasks(text, image, frame, axis)?;
    add_objects(text, alloc, names, frame, axis)?;
    add_row(text, frame, axis, last, b"inputs, interrupts")?;
    Ok(())
}

// Appends a time, given in microseconds.
fn add_time_label(text: &mut Vec<u8>, time: u64) -> Result<(), AllocError>
    ensures { OnOk result (text.new.items ≡ text.old.items ++ time_label time) }
{
    if time % 1_000 == 0 {
        add_number(text, time / 1_000)?;
    } else {
        add_milliseconds(text, time)?;
    }
    text.extend_from_slice(b" ms")?;
    Ok(())
}

// Appends the label of a tick.
fn add_tick_label(text: &mut Vec<u8>, axis: Axis, at: u64) -> Result<(), AllocError>
    ensures { OnOk result (text.new.items ≡ text.old.items ++ tick_label axis at) }
{
    match axis {
        Axis::Time => add_time_label(text, at),
        Axis::Steps => add_number(text, at),
    }
}

// Appends the line of a tick.
fn add_tick_line(text: &mut Vec<u8>, x: u128, y: u64, bottom: u64) -> Result<(), AllocError>
    ensures { OnOk result (text.new.items ≡ text.old.items ++ tick_line x y bottom) }
{
    text.extend_from_slice(b"<path class=\"tick\" d=\"M")?;
    add_place(text, x)?;
    text.extend_from_slice(b" ")?;
    add_number(text, y)?;
    text.extend_from_slice(b"V")?;
    add_number(text, bottom)?;
    text.extend_from_slice(b"\"/>\n")?;
    Ok(())
}

// Appends the element of its label.
fn add_tick_name(text: &mut Vec<u8>, x: u128, y: u64, axis: Axis, at: u64) -> Result<(), AllocError>
    ensures { OnOk result (text.new.items ≡ text.old.items ++ tick_name x y (tick_label axis at)) }
{
    text.extend_from_slice(b"<text class=\"tick\" x=\"")?;
    add_place(text, x)?;
    text.extend_from_slice(b"\" y=\"")?;
    add_number(text, y)?;
    text.extend_from_slice(b"\">")?;
    add_tick_label(text, axis, at)?;
    text.extend_from_slice(b"</text>\n")?;
    Ok(())
}

// Draws a tick.
fn add_tick(text: &mut Vec<u8>, frame: Frame, axis: Axis, at: u64) -> Result<(), AllocError>
    requires time { 0 < frame.time }
    requires steps { 0 < frame.steps }
    ensures { OnOk result (text.new.items ≡ text.old.items ++ tick_text frame axis at) }
{
    let x = frame.x(axis, at);
    add_tick_line(text, x, frame.top(axis), frame.bottom(axis))?;
    add_tick_name(text, x, frame.label_y(axis), axis, at)?;
    Ok(())
}

// Draws the ticks of an axis, which are so far apart.
fn add_ticks(text: &mut Vec<u8>, frame: Frame, axis: Axis, spacing: u64) -> Result<(), AllocError>
    requires time { 0 < frame.time }
    requires steps { 0 < frame.steps }
    requires positive { 0 < spacing }
    ensures { OnOk result (text.new.items ≡ text.old.items ++ ticks_text frame axis spacing) }
{
    let count = (frame.span(axis) / spacing).min(TICKS) + 1;
    for tick in 0..count {
        add_tick(text, frame, axis, tick.saturating_mul(spacing))?;
    }
    Ok(())
}

// Draws a part before the run.
fn add_part(
    text: &mut Vec<u8>,
    alloc: Global,
    image: &Image,
    names: &[Text],
    frame: Frame,
    axis: Axis,
) -> Result<(), AllocError>
    requires time { 0 < frame.time }
    requires steps { 0 < frame.steps }
    ensures { OnOk result (text.new.items ≡ text.old.items ++ part_text frame (picture_names image.now names.now) axis) }
{
    let spacing = spacing_of(frame.span(axis));
    add_rows(text, alloc, image, names, frame, axis)?;
    add_ticks(text, frame, axis, spacing)?;
    Ok(())
}

// Appends how many steps the second part has.
fn add_heading(text: &mut Vec<u8>, y: u64, steps: u64) -> Result<(), AllocError>
    ensures { OnOk result (text.new.items ≡ text.old.items ++ heading_text y steps) }
{
    text.extend_from_slice(b"<text class=\"heading\" x=\"300\" y=\"")?;
    add_number(text, y)?;
    text.extend_from_slice(b"\">Over the first ")?;
    add_number(text, steps)?;
    text.extend_from_slice(b" steps: each instant has its time above, in ms</text>\n")?;
    Ok(())
}

/// Draws what stands before the run.
///
/// # Errors
/// Where memory was refused.
pub(crate) fn add_front(
    text: &mut Vec<u8>,
    alloc: Global,
    image: &Image,
    names: &[Text],
    frame: Frame,
) -> Result<(), AllocError>
    requires time { 0 < frame.time }
    requires steps { 0 < frame.steps }
    ensures { OnOk result (text.new.items ≡ text.old.items ++ front_text frame (picture_names image.now names.now)) }
{
    let heading = frame.top(Axis::Steps) - 700;
    add_opening(text, frame.height())?;
    text.extend_from_slice(STYLE.as_bytes())?;
    add_part(text, alloc, image, names, frame, Axis::Time)?;
    add_heading(text, heading, frame.steps)?;
    add_part(text, alloc, image, names, frame, Axis::Steps)?;
    add_instant(text, frame, 0, 0)?;
    Ok(())
}

// Appends the last line of the run.
fn add_last(text: &mut Vec<u8>, y: u64, last: &[u8]) -> Result<(), AllocError>
    ensures { OnOk result (text.new.items ≡ text.old.items ++ last_text y last.now) }
{
    text.extend_from_slice(b"<text class=\"last\" x=\"2800\" y=\"")?;
    add_number(text, y)?;
    text.extend_from_slice(b"\">")?;
    text.extend_from_slice(without_end(last))?;
    text.extend_from_slice(b"</text>\n</svg>\n")?;
    Ok(())
}

/// Appends the last line of the run, and the end of the file.
///
/// # Errors
/// Where memory was refused.
pub(crate) fn add_end(text: &mut Vec<u8>, frame: Frame, last: &[u8]) -> Result<(), AllocError>
    ensures { OnOk result (text.new.items ≡ text.old.items ++ end_text frame last.now) }
{
    add_last(text, frame.height() - 250, last)
}
