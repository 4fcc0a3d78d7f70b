//! The text of what a search has come to (docs/FORMATS.md, "Search").
ghost use Rattle.std.specs.Prelude.{◌≡◌, ◌++◌, IfOk, OnOk, Some};
ghost use Rattle.std.specs.Fmt.{decimal, signed_decimal};
ghost use Rattle.execution.specs.Held.{line_of};
ghost use Rattle.image.specs.Texts.{names_of};
ghost use Rattle.kernel.specs.Text as texts;
ghost use Rattle.machine.specs.Outcomes.{ending_of, time_of};
ghost use Rattle.searching.specs.Reports.{excess_text, found_text, nothing_text, report_text, sight_text, too_long_text};
ghost use Rattle.searching.specs.Sights.{sight_of};

use crate::one::label_at;
use crate::sight::Finding;
use crate::whole::Searched;
use choices::{Choices, Part, count_text, schedule_text};
use clock::Schedule;
use execution::Line;
use image::Image;
use itoa::Buffer;
use machine::{Outcome, actor_name, last_line};
use std::alloc::{AllocError, Global};

// The text of a line of the image.
fn line_text(alloc: Global, image: &Image, line: &Line) -> Result<Vec<u8>, AllocError>
    ensures { IfOk result (λ text. text.items ≡ texts.line_text (names_of image.now) (line_of image.now line.now)) }
{
    let mut text = Vec::new(alloc);
    text.extend_from_slice(Buffer::new().format(line.time).as_bytes())?;
    text.extend_from_slice(b" ")?;
    text.extend_from_slice(actor_name(image, line.task).as_slice())?;
    text.extend_from_slice(b" ")?;
    text.extend_from_slice(label_at(image, line.label))?;
    text.extend_from_slice(b" ")?;
    text.extend_from_slice(Buffer::new().format(line.value).as_bytes())?;
    text.extend_from_slice(b"\n")?;
    Ok(text)
}

// The last line of a run that has come to this.
fn ending_text(alloc: Global, image: &Image, outcome: &Outcome) -> Result<Vec<u8>, AllocError>
    ensures { IfOk result (λ text. text.items ≡ texts.last_line (names_of image.now) (ending_of outcome.now) (time_of outcome.now)) }
{
    let mut text = Vec::new(alloc);
    text.extend_from_slice(last_line(image, outcome).as_slice())?;
    Ok(text)
}

// What was found, as a run writes it.
fn sight_text(alloc: Global, image: &Image, finding: &Finding) -> Result<Vec<u8>, AllocError>
    ensures { IfOk result (λ text. text.items ≡ sight_text (names_of image.now) (sight_of image.now finding.now)) }
{
    match *finding {
        Finding::Unhandled {
            exception,
            task,
            time,
        } => ending_text(
            alloc,
            image,
            &Outcome::Unhandled {
                exception,
                task,
                time,
            },
        ),
        Finding::WaitsForever { time } => ending_text(
            alloc,
            image,
            &Outcome::WaitsForever { time },
        ),
        Finding::Line(line) => line_text(alloc, image, &line),
    }
}

fn found_text(
    alloc: Global,
    image: &Image,
    schedule: &Schedule,
    finding: &Finding,
) -> Result<Vec<u8>, AllocError>
    ensures { IfOk result (λ text. text.items ≡ found_text (names_of image.now) schedule.now (sight_of image.now finding.now)) }
{
    let mut text = schedule_text(alloc, schedule.lines())?;
    let sight = sight_text(alloc, image, finding)?;
    text.extend_from_slice(b"found: ")?;
    text.extend_from_slice(&sight)?;
    Ok(text)
}

// What is written where more steps than the limit are taken at this time.
fn excess_text(alloc: Global, limit: u64, time: i64) -> Result<Vec<u8>, AllocError>
    ensures { IfOk result (λ text. text.items ≡ excess_text limit time) }
{
    let mut text = Vec::new(alloc);
    text.extend_from_slice(b"found: more than ")?;
    text.extend_from_slice(Buffer::new().format(limit).as_bytes())?;
    text.extend_from_slice(b" steps at ")?;
    text.extend_from_slice(Buffer::new().format(time).as_bytes())?;
    text.extend_from_slice(b"\n")?;
    Ok(text)
}

fn too_long_text(
    alloc: Global,
    limit: u64,
    schedule: &Schedule,
    time: i64,
) -> Result<Vec<u8>, AllocError>
    ensures { IfOk result (λ text. text.items ≡ too_long_text limit schedule.now time) }
{
    let mut text = schedule_text(alloc, schedule.lines())?;
    let excess = excess_text(alloc, limit, time)?;
    text.extend_from_slice(&excess)?;
    Ok(text)
}

fn nothing_text(
    alloc: Global,
    choices: &Choices,
    part: Part,
    worlds: u64,
) -> Result<Vec<u8>, AllocError>
    ensures { IfOk result (λ text. text.items ≡ nothing_text part choices.now worlds) }
{
    let count = count_text(alloc, choices, part)?;
    let mut text = Vec::new(alloc);
    text.extend_from_slice(b"none of ")?;
    text.extend_from_slice(&count)?;
    text.extend_from_slice(b" schedules, ")?;
    text.extend_from_slice(Buffer::new().format(worlds).as_bytes())?;
    text.extend_from_slice(b" worlds\n")?;
    Ok(text)
}

/// The text of what a search of an image through a part of a set has come to, with this limit on the steps at one time.
///
/// # Errors
/// Where memory was refused.
pub fn report(
    alloc: Global,
    image: &Image,
    choices: &Choices,
    part: Part,
    limit: u64,
    searched: &Searched,
) -> Result<Vec<u8>, AllocError>
    ensures { IfOk result (λ text. text.items ≡ report_text image.now choices.now part limit searched.now) }
{
    match searched {
        Searched::Found(schedule, finding) => found_text(alloc, image, schedule, finding),
        Searched::Nothing(worlds) => nothing_text(alloc, choices, part, *worlds),
        Searched::TooLong(schedule, time) => too_long_text(alloc, limit, schedule, *time),
    }
}
