//! The text of charts (docs/FORMATS.md, "Charts").
ghost use Rattle.std.specs.Prelude.{◌≡◌, ◌+◌, ◌*◌, ◌<◌, ◌≤◌, ◌++◌, ◌||◌, IfOk, OnOk, codes, decimal, length, slice_get};
ghost use Rattle.base.specs.declared.limits.TheConstants.{CHANNELS, NAME_LIMIT, TASKS};
ghost use Rattle.image.specs.Texts.{names_of};
ghost use Rattle.measuring.specs.Text.{below, spaces};
ghost use Rattle.tracing.specs.Traces.{named_object};
ghost use Rattle.charts.specs.Cells.{rest_mark};
ghost use Rattle.charts.specs.Scales as scales;
ghost use Rattle.charts.specs.Signs.{Cells};
ghost use Rattle.charts.specs.Tables.{HoldsCells};
ghost use Rattle.charts.specs.Text as texts;
ghost use Rattle.charts.specs.Text.{input_mark, inputs_text, label, name_text, row_text, run_text, shown_actor, shown_object};
ghost use Rattle.charts.specs.declared.rows.TheConstants.{ROWS};
ghost use Rattle.charts.specs.declared.scale.TheConstants.{COLUMNS};
ghost use Rattle.charts.specs.declared.table.TheConstants.{CELLS};

use crate::cell::{Cell, Rest};
use crate::rows::Row;
use crate::scale::{COLUMNS, column};
use crate::table::cell_at;
use arrayvec::ArrayVec;
use base::ScheduleLine;
use base::limits::{CHANNELS, NAME_LIMIT};
use image::{Image, Text};
use itoa::Buffer;
use machine::actor_name;
use std::alloc::{AllocError, Global};

// What is shown of how a task or an object rests.
fn rest_mark(rest: Rest) -> &'static [u8]
    ensures { result.now ≡ rest_mark rest }
{
    match rest {
        Rest::Nothing => b" ",
        Rest::Ready => b"=",
        Rest::Delayed => b".",
        Rest::Queued => b"q",
    }
}

// What is shown of a cell, by the mark of what has acted in its column, and by how it rests at the end of that.
fn mark(act: &'static [u8], cell: Cell, rest: Rest) -> &'static [u8]
    ensures { result.now ≡ texts.mark act.now cell rest }
{
    if cell.is_unhandled {
        b"!"
    } else if cell.is_late {
        b"L"
    } else if cell.is_preempted {
        b"P"
    } else if cell.acts {
        act
    } else {
        rest_mark(rest)
    }
}

// Appends the name with which a row ends.
fn add_name(text: &mut Vec<u8>, name: &[u8]) -> Result<(), AllocError>
    ensures { OnOk result (text.new.items ≡ text.old.items ++ name_text name.now) }
{
    text.extend_from_slice(b" ")?;
    text.extend_from_slice(name)?;
    text.extend_from_slice(b"\n")?;
    Ok(())
}

// Appends a row of so many columns.
fn add_row(
    text: &mut Vec<u8>,
    cells: &[Cell],
    row: usize,
    act: &'static [u8],
    columns: usize,
    name: &[u8],
) -> Result<(), AllocError>
    requires room { length cells.now ≡ CELLS }
    requires row { row < ROWS }
    requires columns { columns ≤ COLUMNS }
    ensures { (shown : Cells) → HoldsCells cells.now shown → OnOk result
        (text.new.items ≡ text.old.items ++ row_text act.now (shown row) columns name.now) }
{
    let mut rest = Rest::Nothing;
    for column in 0..columns {
        let cell = cell_at(cells, row, column);
        rest = cell.rests.unwrap_or(rest);
        text.extend_from_slice(mark(act, cell, rest))?;
    }
    add_name(text, name)?;
    Ok(())
}

// Whether one of the two holds.
fn either(first: bool, second: bool) -> bool
    ensures { result ≡ (first || second) }
{
    first || second
}

// Whether something has acted in a column of a row.
fn acts(cells: &[Cell], row: usize) -> bool
    requires room { length cells.now ≡ CELLS }
    requires row { row < ROWS }
    ensures { (shown : Cells) → HoldsCells cells.now shown → result ≡ texts.acts (shown row) COLUMNS }
{
    let mut acts = false;
    for column in 0..COLUMNS {
        let cell = cell_at(cells, row, column);
        acts = either(acts, cell.acts);
    }
    acts
}

// Appends the row of a task, or of a handler, where that has run; there are so many tasks.
fn add_actor(
    text: &mut Vec<u8>,
    image: &Image,
    tasks: u8,
    cells: &[Cell],
    actor: u8,
    columns: usize,
) -> Result<(), AllocError>
    requires tasks { tasks ≡ length image.now.tasks }
    requires room { length cells.now ≡ CELLS }
    requires columns { columns ≤ COLUMNS }
    ensures { (shown : Cells) → HoldsCells cells.now shown → OnOk result (text.new.items ≡ text.old.items ++ shown_actor image.now shown columns actor) }
{
    let row = usize::from(actor);
    let is_shown = either(actor < tasks, acts(cells, row));
    if !is_shown {
        return Ok(());
    }
    let name = actor_name(image, actor);
    add_row(text, cells, row, b"#", columns, name.as_slice())?;
    Ok(())
}

// Appends the rows of tasks and handlers.
fn add_actors(
    text: &mut Vec<u8>,
    image: &Image,
    tasks: u8,
    cells: &[Cell],
    columns: usize,
) -> Result<(), AllocError>
    requires tasks { tasks ≡ length image.now.tasks }
    requires few { tasks ≤ TASKS }
    requires room { length cells.now ≡ CELLS }
    requires columns { columns ≤ COLUMNS }
    ensures { (shown : Cells) → HoldsCells cells.now shown → OnOk result
        (text.new.items ≡ text.old.items ++ below (length image.now.tasks + (CHANNELS + 1)) (shown_actor image.now shown columns)) }
{
    for actor in 0..tasks + (CHANNELS + 1) {
        add_actor(text, image, tasks, cells, actor, columns)?;
    }
    Ok(())
}

// The name of an object, or its number where it has none.
fn object_name(names: &[Text], object: u8) -> ArrayVec<u8, NAME_LIMIT>
    ensures { result.items ≡ named_object object (slice_get names.now object) }
{
    let mut text = ArrayVec::new();
    match names.get(usize::from(object)) {
        Some(name) => {
            let _ = text.try_extend_from_slice(name.as_bytes());
        }
        None => {
            let _ = text.try_extend_from_slice(b"object ");
            let _ = text.try_extend_from_slice(Buffer::new().format(object).as_bytes());
        }
    }
    text
}

// Appends the rows of objects, of which there are so many.
fn add_objects(
    text: &mut Vec<u8>,
    names: &[Text],
    count: u8,
    cells: &[Cell],
    columns: usize,
) -> Result<(), AllocError>
    requires room { length cells.now ≡ CELLS }
    requires columns { columns ≤ COLUMNS }
    ensures { (shown : Cells) → HoldsCells cells.now shown → OnOk result
        (text.new.items ≡ text.old.items ++ below count (shown_object names.now shown columns)) }
{
    for object in 0..count {
        let row = Row::Object(object).number();
        let name = object_name(names, object);
        add_row(text, cells, row, b"x", columns, name.as_slice())?;
    }
    Ok(())
}

// Whether this line of the schedule comes in a column up to this time.
fn comes_at(scale: u64, last: i64, at: usize, line: &ScheduleLine) -> bool
    requires { 0 < scale }
    ensures { result ≡ texts.comes_at scale last at line.now }
{
    line.time <= last && column(scale, line.time) == at
}

// Whether a line of the schedule comes in a column up to this time.
fn comes(lines: &[ScheduleLine], scale: u64, last: i64, at: usize) -> bool
    requires { 0 < scale }
    ensures { result ≡ texts.comes lines.now scale last at }
{
    for line in lines {
        if comes_at(scale, last, at, line) {
            return true;
        }
    }
    false
}

// What is shown of a column in which a line of the schedule comes or not.
fn input_mark(comes: bool) -> &'static [u8]
    ensures { result.now ≡ input_mark comes }
{
    if comes { b"^" } else { b" " }
}

// Appends the row of the schedule's lines.
fn add_inputs(
    text: &mut Vec<u8>,
    lines: &[ScheduleLine],
    scale: u64,
    last: i64,
    columns: usize,
) -> Result<(), AllocError>
    requires { 0 < scale }
    ensures { OnOk result (text.new.items ≡ text.old.items ++ inputs_text lines.now scale last columns) }
{
    for column in 0..columns {
        text.extend_from_slice(input_mark(comes(lines, scale, last, column)))?;
    }
    add_name(text, b"inputs")?;
    Ok(())
}

// Appends a number and its unit.
fn add_time(axis: &mut Vec<u8>, number: u64, unit: &[u8]) -> Result<(), AllocError>
    ensures { OnOk result (axis.new.items ≡ axis.old.items ++ (decimal number ++ unit.now)) }
{
    axis.extend_from_slice(Buffer::new().format(number).as_bytes())?;
    axis.extend_from_slice(unit)?;
    Ok(())
}

// Appends the time at this one of each tenth columns.
fn add_label(axis: &mut Vec<u8>, scale: u64, tick: u64) -> Result<(), AllocError>
    ensures { OnOk result (axis.new.items ≡ axis.old.items ++ label scale tick) }
{
    let time = scale.saturating_mul(tick.saturating_mul(10));
    if scale < 100 {
        add_time(axis, time, b" us")
    } else if scale < 100_000 {
        add_time(axis, time / 1_000, b" ms")
    } else {
        add_time(axis, time / 1_000_000, b" s")
    }
}

// Appends so many spaces.
fn add_spaces(text: &mut Vec<u8>, count: usize) -> Result<(), AllocError>
    ensures { OnOk result (text.new.items ≡ text.old.items ++ spaces count) }
{
    let mut added = 0;
    while added < count {
        text.extend_from_slice(b" ")?;
        added += 1;
    }
    Ok(())
}

// The times at so many tenth columns.
fn axis(alloc: Global, scale: u64, ticks: usize) -> Result<Vec<u8>, AllocError>
    requires { ticks ≤ COLUMNS }
    ensures { IfOk result (λ axis. axis.items ≡ texts.axis scale ticks) }
{
    let mut axis = Vec::new(alloc);
    for tick in 0..ticks {
        let behind = axis.len();
        add_spaces(&mut axis, (10 * tick).saturating_sub(behind))?;
        axis.extend_from_slice(b"|")?;
        add_label(&mut axis, scale, tick as u64)?;
    }
    Ok(axis)
}

// The first two lines of a chart.
fn heading(alloc: Global, scale: u64, ticks: usize) -> Result<Vec<u8>, AllocError>
    requires { ticks ≤ COLUMNS }
    ensures { IfOk result (λ text. text.items ≡ texts.heading scale ticks) }
{
    let axis = axis(alloc, scale, ticks)?;
    let mut text = Vec::new(alloc);
    text.extend_from_slice(b"1 column = ")?;
    text.extend_from_slice(Buffer::new().format(scale).as_bytes())?;
    text.extend_from_slice(b" us\n")?;
    text.extend_from_slice(&axis)?;
    text.extend_from_slice(b"\n")?;
    Ok(text)
}

/// The text of a chart of a run up to this time, where there are so many tasks and objects, the objects have these names, and a column has so many
/// microseconds.
///
/// # Errors
/// Where memory was refused.
pub(crate) fn text_of(
    alloc: Global,
    image: &Image,
    names: &[Text],
    lines: &[ScheduleLine],
    tasks: u8,
    objects: u8,
    scale: u64,
    last: i64,
    cells: &[Cell],
) -> Result<Vec<u8>, AllocError>
    requires tasks { tasks ≡ length image.now.tasks }
    requires few { tasks ≤ TASKS }
    requires objects { objects ≡ length image.now.objects }
    requires room { length cells.now ≡ CELLS }
    requires positive { 0 < scale }
    ensures { (shown : Cells) → HoldsCells cells.now shown → IfOk result (λ text. text.items ≡ run_text image.now names.now lines.now scale last shown) }
{
    let last_column = column(scale, last);
    let columns = last_column + 1;
    let mut text = heading(alloc, scale, last_column / 10 + 1)?;
    add_inputs(&mut text, lines, scale, last, columns)?;
    add_row(
        &mut text,
        cells,
        Row::Lines.number(),
        b"v",
        columns,
        b"lines",
    )?;
    add_actors(&mut text, image, tasks, cells, columns)?;
    add_objects(&mut text, names, objects, cells, columns)?;
    Ok(text)
}
