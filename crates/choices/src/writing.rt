//! Writing schedules as text.
ghost use Rattle.std.specs.Prelude.{◌≡◌, ◌++◌, IfOk, OnOk};
ghost use Rattle.choices.specs.Writing.{line_text, number_text, schedule_text};

use base::ScheduleLine;
use itoa::Buffer;
use std::alloc::{AllocError, Global};

// Adds a number in decimal, and what follows it.
fn put_number(text: &mut Vec<u8>, number: i64, end: &[u8]) -> Result<(), AllocError>
    ensures { OnOk result (text.new.items ≡ text.old.items ++ number_text number end.now) }
{
    text.extend_from_slice(Buffer::new().format(number).as_bytes())?;
    text.extend_from_slice(end)
}

// Adds a line.
fn put_line(text: &mut Vec<u8>, line: &ScheduleLine) -> Result<(), AllocError>
    ensures { OnOk result (text.new.items ≡ text.old.items ++ line_text line.now) }
{
    put_number(text, line.time, b" ")?;
    put_number(text, i64::from(line.channel), b" ")?;
    put_number(text, line.value, b"\n")
}

/// The text of a schedule (docs/FORMATS.md, "Schedule").
///
/// # Errors
/// Where memory was refused.
pub fn schedule_text(alloc: Global, lines: &[ScheduleLine]) -> Result<Vec<u8>, AllocError>
    ensures { IfOk result (λ text. text.items ≡ schedule_text lines.now) }
{
    let mut text = Vec::new(alloc);
    for line in lines {
        put_line(&mut text, line)?;
    }
    Ok(text)
}
