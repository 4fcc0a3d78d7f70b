//! The text of the measures of a set (docs/FORMATS.md, "Measures of a set").
ghost use Rattle.std.specs.Prelude.{◌≡◌, ◌++◌, IfOk, OnOk};
ghost use Rattle.measuring.specs.Text as row_texts;
ghost use Rattle.choices.specs.Places.{AreWithin};
ghost use Rattle.set_measures.specs.Choices.{schedule_of, schedules_of};
ghost use Rattle.set_measures.specs.Text.{count_text, cut_count, cut_text, has_number, is_named, line_front, line_row, lines_text, named_schedule, number_end, numbered_schedule, rows_text, schedules_text, set_text, signed_end};

use crate::extreme::Row;
use crate::row_text::{extreme_row, is_shown};
use crate::set::SetMeasures;
use base::ScheduleLine;
use choices::{Choice, Choices, schedule_text};
use image::{Image, Text};
use itoa::Buffer;
use measuring::Form;
use std::alloc::{AllocError, Global};

/// The heading of the rows.
const SET_HEADING: &[u8] = b"    value  schedule measure\n";

// Appends this where there are headings.
fn add_heading(text: &mut Vec<u8>, form: Form, heading: &[u8]) -> Result<(), AllocError>
    ensures { OnOk result (text.new.items ≡ text.old.items ++ row_texts.heading form heading.now) }
{
    match form {
        Form::Table => text.extend_from_slice(heading),
        Form::Fields => Ok(()),
    }
}

// Appends the rows of measures; objects have these names.
fn add_rows(
    text: &mut Vec<u8>,
    form: Form,
    image: &Image,
    names: &[Text],
    rows: &[Row],
) -> Result<(), AllocError>
    ensures { OnOk result (text.new.items ≡ text.old.items ++ rows_text form image.now names.now rows.now) }
{
    for row in rows {
        text.extend_from_slice(extreme_row(form, image, names, row).as_slice())?;
    }
    Ok(())
}

// Whether a row is shown and has this number.
fn has_number(number: u64, row: &Row) -> bool
    ensures { result ≡ has_number number row.now.measure row.now.extreme }
{
    match row.extreme {
        None => false,
        Some(extreme) => {
            is_shown(row.measure.direction(), extreme.value) && number == extreme.number
        }
    }
}

// Whether a row that is shown has this number.
fn is_named(number: u64, rows: &[Row]) -> bool
    ensures { result ≡ is_named number rows.now }
{
    rows.iter().any(|row| has_number(number, row))
}

// Appends a number in decimal, and what follows it.
fn put_signed(text: &mut Vec<u8>, number: i64, end: &[u8]) -> Result<(), AllocError>
    ensures { OnOk result (text.new.items ≡ text.old.items ++ signed_end number end.now) }
{
    text.extend_from_slice(Buffer::new().format(number).as_bytes())?;
    text.extend_from_slice(end)
}

// Appends a number in decimal, and what follows it.
fn put_number(text: &mut Vec<u8>, number: u64, end: &[u8]) -> Result<(), AllocError>
    ensures { OnOk result (text.new.items ≡ text.old.items ++ number_end number end.now) }
{
    text.extend_from_slice(Buffer::new().format(number).as_bytes())?;
    text.extend_from_slice(end)
}

// Appends the beginning of a line of the schedule of this number, as fields.
fn add_line_front(text: &mut Vec<u8>, number: u64, line: &ScheduleLine) -> Result<(), AllocError>
    ensures { OnOk result (text.new.items ≡ text.old.items ++ line_front number line.now) }
{
    text.extend_from_slice(b"schedule\t")?;
    put_number(text, number, b"\t")?;
    put_signed(text, line.time, b"\t")
}

// Appends a line of the schedule of this number, as fields.
fn add_line(text: &mut Vec<u8>, number: u64, line: &ScheduleLine) -> Result<(), AllocError>
    ensures { OnOk result (text.new.items ≡ text.old.items ++ line_row number line.now) }
{
    add_line_front(text, number, line)?;
    put_number(text, u64::from(line.channel), b"\t")?;
    put_signed(text, line.value, b"\n")
}

// Appends the lines of the schedule of this number, as fields.
fn add_lines(text: &mut Vec<u8>, number: u64, lines: &[ScheduleLine]) -> Result<(), AllocError>
    ensures { OnOk result (text.new.items ≡ text.old.items ++ lines_text number lines.now) }
{
    for line in lines {
        add_line(text, number, line)?;
    }
    Ok(())
}

// Appends the schedule of this number.
fn add_schedule(
    alloc: Global,
    text: &mut Vec<u8>,
    form: Form,
    number: u64,
    lines: &[ScheduleLine],
) -> Result<(), AllocError>
    ensures { OnOk result (text.new.items ≡ text.old.items ++ numbered_schedule form number lines.now) }
{
    match form {
        Form::Table => {
            text.extend_from_slice(b"\nschedule ")?;
            put_number(text, number, b"\n")?;
            text.extend_from_slice(schedule_text(alloc, lines)?.as_slice())
        }
        Form::Fields => add_lines(text, number, lines),
    }
}

// Appends the schedule of a choice, which has this number, if a row has that.
fn add_named(
    alloc: Global,
    text: &mut Vec<u8>,
    form: Form,
    rows: &[Row],
    number: u64,
    choice: &Choice,
    choices: &Choices,
) -> Result<(), AllocError>
    requires { AreWithin choices.now choice.now }
    ensures { OnOk result (text.new.items ≡ text.old.items ++ named_schedule form rows.now number (schedule_of choices.now choice.now)) }
{
    if !is_named(number, rows) {
        return Ok(());
    }
    let schedule = choice.schedule(alloc, choices)?;
    add_schedule(alloc, text, form, number, schedule.lines())
}

// Appends the schedules of a set whose numbers the rows have.
fn add_schedules(
    alloc: Global,
    text: &mut Vec<u8>,
    form: Form,
    rows: &[Row],
    choices: &Choices,
) -> Result<(), AllocError>
    ensures { OnOk result (text.new.items ≡ text.old.items ++ schedules_text form rows.now 1 (schedules_of choices.now)) }
{
    let _slots = choices.slots();
    let mut choice = Choice::first(alloc, choices)?;
    let mut number: u64 = 1;
    let mut is_more = true;
    while is_more {
        add_named(alloc, text, form, rows, number, &choice, choices)?;
        number = number.saturating_add(1);
        is_more = choice.advance(choices);
    }
    Ok(())
}

// Appends how many runs the limit on steps has cut.
fn add_cut_count(text: &mut Vec<u8>, cut: u64) -> Result<(), AllocError>
    ensures { OnOk result (text.new.items ≡ text.old.items ++ cut_count cut) }
{
    text.extend_from_slice(b", ")?;
    put_number(text, cut, b" cut by the limit on steps")
}

// Appends that, if it has cut any.
fn add_cut(text: &mut Vec<u8>, cut: u64) -> Result<(), AllocError>
    ensures { OnOk result (text.new.items ≡ text.old.items ++ cut_text cut) }
{
    if cut == 0 {
        Ok(())
    } else {
        add_cut_count(text, cut)
    }
}

// Appends the last line.
fn add_count(text: &mut Vec<u8>, schedules: u64, cut: u64) -> Result<(), AllocError>
    ensures { OnOk result (text.new.items ≡ text.old.items ++ count_text schedules cut) }
{
    put_number(text, schedules, b" schedules")?;
    add_cut(text, cut)?;
    text.extend_from_slice(b"\n")
}

/// The text of what is measured of an image on the schedules of a set, in this form. Its protected objects have these names, in the order of their numbers; one
/// for which there is none is named by its number.
///
/// # Errors
/// Where memory was refused.
pub fn report(
    alloc: Global,
    form: Form,
    image: &Image,
    names: &[Text],
    choices: &Choices,
    measures: &SetMeasures,
) -> Result<Vec<u8>, AllocError>
    ensures { IfOk result (λ text. text.items ≡ set_text form image.now names.now choices.now measures.now) }
{
    let mut text = Vec::new(alloc);
    add_heading(&mut text, form, SET_HEADING)?;
    add_rows(&mut text, form, image, names, &measures.rows)?;
    add_schedules(alloc, &mut text, form, &measures.rows, choices)?;
    add_heading(&mut text, form, b"\n")?;
    add_count(&mut text, measures.schedules, measures.cut)?;
    Ok(text)
}
