//! The elements of a picture.
ghost use Rattle.std.specs.Prelude.{◌≡◌, ◌<◌, ◌++◌, OnOk, decimal};
ghost use Rattle.pictures.specs.Text.{drawn_text, instant_at, instant_label, instant_line, instant_text, milliseconds, path_text, placed_text};

use crate::frame::{Axis, Frame, Row};
use crate::ink::Ink;
use itoa::Buffer;
use std::alloc::AllocError;

/// Appends a number in decimal.
pub(crate) fn add_number(text: &mut Vec<u8>, number: u64) -> Result<(), AllocError>
    ensures { OnOk result (text.new.items ≡ text.old.items ++ decimal number) }
{
    text.extend_from_slice(Buffer::new().format(number).as_bytes())?;
    Ok(())
}

/// Appends a place on an axis.
pub(crate) fn add_place(text: &mut Vec<u8>, place: u128) -> Result<(), AllocError>
    ensures { OnOk result (text.new.items ≡ text.old.items ++ decimal place) }
{
    text.extend_from_slice(Buffer::new().format(place).as_bytes())?;
    Ok(())
}

/// Appends a time, given in microseconds, in milliseconds.
pub(crate) fn add_milliseconds(text: &mut Vec<u8>, time: u64) -> Result<(), AllocError>
    ensures { OnOk result (text.new.items ≡ text.old.items ++ milliseconds time) }
{
    add_number(text, time / 1_000)?;
    text.extend_from_slice(b".")?;
    add_number(text, time / 100 % 10)?;
    add_number(text, time / 10 % 10)?;
    add_number(text, time % 10)?;
    Ok(())
}

// Appends a path.
fn add_path(text: &mut Vec<u8>, ink: Ink, x: u128, y: u64, title: &[u8]) -> Result<(), AllocError>
    ensures { OnOk result (text.new.items ≡ text.old.items ++ path_text ink x y title.now) }
{
    text.extend_from_slice(b"<path class=\"")?;
    text.extend_from_slice(ink.class())?;
    text.extend_from_slice(b"\" d=\"M")?;
    add_place(text, x)?;
    text.extend_from_slice(b" ")?;
    add_number(text, y)?;
    text.extend_from_slice(ink.outline())?;
    text.extend_from_slice(b"\"><title>")?;
    text.extend_from_slice(title)?;
    text.extend_from_slice(b"</title></path>\n")?;
    Ok(())
}

// Draws something in one part, as far as its axis goes.
fn add_placed(
    text: &mut Vec<u8>,
    frame: Frame,
    axis: Axis,
    row: Row,
    ink: Ink,
    at: u64,
    title: &[u8],
) -> Result<(), AllocError>
    requires time { 0 < frame.time }
    requires steps { 0 < frame.steps }
    ensures { OnOk result (text.new.items ≡ text.old.items ++ placed_text frame axis row ink at title.now) }
{
    if frame.span(axis) < at {
        return Ok(());
    }
    let x = frame.x(axis, at);
    let y = frame.y(axis, frame.number(row), ink.offset());
    add_path(text, ink, x, y, title)
}

/// Draws something in both parts, at a time, in microseconds, and with a step of the run.
///
/// # Errors
/// Where memory was refused.
pub(crate) fn add_drawn(
    text: &mut Vec<u8>,
    frame: Frame,
    row: Row,
    ink: Ink,
    time: u64,
    step: u64,
    title: &[u8],
) -> Result<(), AllocError>
    requires time { 0 < frame.time }
    requires steps { 0 < frame.steps }
    ensures { OnOk result (text.new.items ≡ text.old.items ++ drawn_text frame row ink time step title.now) }
{
    add_placed(text, frame, Axis::Time, row, ink, time, title)?;
    add_placed(text, frame, Axis::Steps, row, ink, step, title)?;
    Ok(())
}

// Appends the line of an instant.
fn add_instant_line(text: &mut Vec<u8>, x: u128, y: u64, bottom: u64) -> Result<(), AllocError>
    ensures { OnOk result (text.new.items ≡ text.old.items ++ instant_line x y bottom) }
{
    text.extend_from_slice(b"<path class=\"instant\" d=\"M")?;
    add_place(text, x)?;
    text.extend_from_slice(b" ")?;
    add_number(text, y)?;
    text.extend_from_slice(b"V")?;
    add_number(text, bottom)?;
    text.extend_from_slice(b"\"/>\n")?;
    Ok(())
}

// Appends its time, in microseconds.
fn add_instant_label(text: &mut Vec<u8>, x: u128, y: u64, time: u64) -> Result<(), AllocError>
    ensures { OnOk result (text.new.items ≡ text.old.items ++ instant_label x y time) }
{
    text.extend_from_slice(b"<text class=\"instant\" transform=\"translate(")?;
    add_place(text, x)?;
    text.extend_from_slice(b" ")?;
    add_number(text, y)?;
    text.extend_from_slice(b")rotate(-60)\">")?;
    add_milliseconds(text, time)?;
    text.extend_from_slice(b"</text>\n")?;
    Ok(())
}

// Appends both.
fn add_instant_at(text: &mut Vec<u8>, frame: Frame, x: u128, time: u64) -> Result<(), AllocError>
    ensures { OnOk result (text.new.items ≡ text.old.items ++ instant_at frame x time) }
{
    let top = frame.top(Axis::Steps);
    let bottom = frame.bottom(Axis::Steps);
    add_instant_line(text, x, top, bottom)?;
    add_instant_label(text, x, top - 40, time)?;
    Ok(())
}

/// Draws where an instant of this time, in microseconds, begins after so many steps.
///
/// # Errors
/// Where memory was refused.
pub(crate) fn add_instant(
    text: &mut Vec<u8>,
    frame: Frame,
    time: u64,
    step: u64,
) -> Result<(), AllocError>
    requires time { 0 < frame.time }
    requires steps { 0 < frame.steps }
    ensures { OnOk result (text.new.items ≡ text.old.items ++ instant_text frame time step) }
{
    if frame.steps < step {
        return Ok(());
    }
    let x = frame.x(Axis::Steps, step);
    add_instant_at(text, frame, x, time)
}
