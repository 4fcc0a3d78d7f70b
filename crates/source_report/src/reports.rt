//! What is said of places of files.
ghost use Rattle.std.specs.Prelude.{◌≡◌, ◌++◌, decimal, OnOk};
ghost use Rattle.source_report.specs.Reports.{fault_words, line_heading, place_heading, place_report, rule_in, schedule_report, source_report, title_of};

use crate::marked::{put_marked_place, put_shown};
use crate::pieces::{behind, numbered_line, up_to};
use diagnostics::put_place;
use itoa::Buffer;
use std::alloc::AllocError;

// The title of an explanation.
fn title_of(explanation: &[u8]) -> &[u8]
    ensures { result.now ≡ title_of explanation.now }
{
    up_to(b'\n', behind(b' ', explanation))
}

// The rule of an explanation.
fn rule_in(explanation: &[u8]) -> &[u8]
    ensures { result.now ≡ rule_in explanation.now }
{
    up_to(b'\n', behind(b'\n', behind(b'\n', explanation)))
}

// Adds the title and the rule of an explanation, and the number that it has.
fn put_fault_words(out: &mut Vec<u8>, explanation: &[u8], number: u8) -> Result<(), AllocError>
    ensures { OnOk result (out.new.items ≡ out.old.items ++ fault_words explanation.now number) }
{
    out.extend_from_slice(b"error: ")?;
    out.extend_from_slice(title_of(explanation))?;
    out.extend_from_slice(b": ")?;
    out.extend_from_slice(rule_in(explanation))?;
    out.extend_from_slice(b" [fault ")?;
    out.extend_from_slice(Buffer::new().format(number).as_bytes())?;
    out.extend_from_slice(b"]")
}

fn put_place_heading(
    out: &mut Vec<u8>,
    file: &[u8],
    text: &[u8],
    place: u32,
) -> Result<(), AllocError>
    ensures { OnOk result (out.new.items ≡ out.old.items ++ place_heading file.now text.now place) }
{
    out.extend_from_slice(file)?;
    out.extend_from_slice(b":")?;
    put_place(out, text, place)?;
    out.extend_from_slice(b": ")
}

fn put_line_heading(out: &mut Vec<u8>, file: &[u8], line: u32) -> Result<(), AllocError>
    ensures { OnOk result (out.new.items ≡ out.old.items ++ line_heading file.now line) }
{
    out.extend_from_slice(file)?;
    out.extend_from_slice(b":")?;
    out.extend_from_slice(Buffer::new().format(line).as_bytes())?;
    out.extend_from_slice(b": ")
}

/// Adds `FILE:LINE:COLUMN: ` and the words, and the line of the place with a mark below it.
///
/// # Errors
/// Where memory was refused.
pub fn put_place_report(
    out: &mut Vec<u8>,
    file: &[u8],
    text: &[u8],
    place: u32,
    words: &[u8],
) -> Result<(), AllocError>
    ensures { OnOk result (out.new.items ≡ out.old.items ++ place_report file.now text.now place words.now) }
{
    put_place_heading(out, file, text, place)?;
    out.extend_from_slice(words)?;
    out.extend_from_slice(b"\n")?;
    put_marked_place(out, text, place)
}

/// Adds the report of a source's fault of this number at this place: where it is, the title and the rule of its explanation, and the line with a mark.
///
/// # Errors
/// Where memory was refused.
pub fn put_source_report(
    out: &mut Vec<u8>,
    file: &[u8],
    text: &[u8],
    explanation: &[u8],
    number: u8,
    place: u32,
) -> Result<(), AllocError>
    ensures { OnOk result (out.new.items ≡ out.old.items ++ source_report file.now text.now explanation.now number place) }
{
    put_place_heading(out, file, text, place)?;
    put_fault_words(out, explanation, number)?;
    out.extend_from_slice(b"\n")?;
    put_marked_place(out, text, place)
}

/// Adds the report of a schedule's fault of this number in this line: which line it is, the title and the rule of its explanation, and the line.
///
/// # Errors
/// Where memory was refused.
pub fn put_schedule_report(
    out: &mut Vec<u8>,
    file: &[u8],
    text: &[u8],
    explanation: &[u8],
    number: u8,
    line: u32,
) -> Result<(), AllocError>
    ensures { OnOk result (out.new.items ≡ out.old.items ++ schedule_report file.now text.now explanation.now number line) }
{
    put_line_heading(out, file, line)?;
    put_fault_words(out, explanation, number)?;
    out.extend_from_slice(b"\n")?;
    put_shown(out, numbered_line(line as usize, text))?;
    out.extend_from_slice(b"\n")
}
