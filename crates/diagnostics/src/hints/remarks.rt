//! What is said of a text below the line of its fault's place.
ghost use Rattle.std.specs.Prelude.{◌≡◌, ◌++◌, drop, IfOk, OnOk};
ghost use Rattle.diagnostics.specs.hints.Hinted.{AreRemarksAt};

use crate::hints::hinted::hints_at;
use crate::hints::notes::notes_at;
use crate::hints::parsed_text::ParsedText;
use std::alloc::{AllocError, Global};

// Adds the lines but for the first one, which is empty.
fn put_lines(out: &mut Vec<u8>, lines: &[u8]) -> Result<(), AllocError>
    ensures { OnOk result (out.new.items ≡ out.old.items ++ drop 1 lines.now) }
{
    match lines {
        [] => Ok(()),
        [_, rest @ ..] => out.extend_from_slice(rest),
    }
}

/// What to write instead where the text's fault has the number and this place, and what is reported of the text: the lines of `hints_at` and of `notes_at`,
/// without the empty ones before them.
///
/// # Errors
/// Where memory was refused.
#[tactic(auto, unfolding(crate::specs::hints::Hinted::AreRemarksAt))]
pub fn remarks_at(
    alloc: Global,
    number: u64,
    place: Option<u32>,
    text: &ParsedText,
) -> Result<Vec<u8>, AllocError>
    ensures { IfOk result (λ remarks. AreRemarksAt number place text.now remarks.items) }
{
    let mut remarks = Vec::new(alloc);
    let hints = hints_at(alloc, number, place, text)?;
    put_lines(&mut remarks, &hints)?;
    let notes = notes_at(alloc, number, place, text)?;
    put_lines(&mut remarks, &notes)?;
    Ok(remarks)
}
