//! Reporting where the code of a program passes a limit of images.
ghost use Rattle.std.specs.Prelude.{◌≡◌, ◌++◌, decimal, IfOk, OnOk};
ghost use Rattle.diagnostics.specs.hints.Stopped.{frame_line, instructions_line, named_place, rows_line};

use crate::hints::places::{first_name_at, put_place};
use base::limits::{FRAME_WORDS, INSTRUCTIONS, ROWS};
use itoa::Buffer;
use lexer::Token;
use std::alloc::{AllocError, Global};

fn put_number(out: &mut Vec<u8>, number: usize) -> Result<(), AllocError>
    ensures { OnOk result (out.new.items ≡ out.old.items ++ decimal number) }
{
    out.extend_from_slice(Buffer::new().format(number).as_bytes())
}

/// The name that is at the place, and the place.
///
/// # Errors
/// Where memory was refused.
pub(crate) fn put_named_place(
    out: &mut Vec<u8>,
    text: &[u8],
    list: &[Token],
    place: u32,
) -> Result<(), AllocError>
    ensures { OnOk result (out.new.items ≡ out.old.items ++ named_place text.now list.now place) }
{
    match first_name_at(place, list) {
        Some(name) => out.extend_from_slice(name.as_bytes())?,
        None => {}
    }
    out.extend_from_slice(b" at ")?;
    put_place(out, text, place)
}

/// What is reported of the code of the body whose name is at this place, with which there may be more instructions than an image has, after so many.
///
/// # Errors
/// Where memory was refused.
pub fn instructions_line(
    alloc: Global,
    text: &[u8],
    list: &[Token],
    place: u32,
    before: usize,
) -> Result<Vec<u8>, AllocError>
    ensures { IfOk result (λ notes. notes.items ≡ instructions_line text.now list.now place before) }
{
    let mut out = Vec::new(alloc);
    out.extend_from_slice(b"\nthe code of ")?;
    put_named_place(&mut out, text, list, place)?;
    out.extend_from_slice(b" passes a limit: there may be more than ")?;
    put_number(&mut out, INSTRUCTIONS)?;
    out.extend_from_slice(b" instructions with the ")?;
    put_number(&mut out, before)?;
    out.extend_from_slice(b" before it\n")?;
    Ok(out)
}

/// What is reported of the code of the body whose name is at this place, whose frame and operand stack may need more words together than a frame has.
///
/// # Errors
/// Where memory was refused.
pub fn frame_line(
    alloc: Global,
    text: &[u8],
    list: &[Token],
    place: u32,
) -> Result<Vec<u8>, AllocError>
    ensures { IfOk result (λ notes. notes.items ≡ frame_line text.now list.now place) }
{
    let mut out = Vec::new(alloc);
    out.extend_from_slice(b"\nthe code of ")?;
    put_named_place(&mut out, text, list, place)?;
    out.extend_from_slice(b" passes a limit: its frame and its operand stack may need more than ")?;
    put_number(&mut out, FRAME_WORDS)?;
    out.extend_from_slice(b" words\n")?;
    Ok(out)
}

/// What is reported of the handlers up to the end of what has its name at this place, which have so many choices, more than an image has rows.
///
/// # Errors
/// Where memory was refused.
pub fn rows_line(
    alloc: Global,
    text: &[u8],
    list: &[Token],
    place: u32,
    rows: usize,
) -> Result<Vec<u8>, AllocError>
    ensures { IfOk result (λ notes. notes.items ≡ rows_line text.now list.now place rows) }
{
    let mut out = Vec::new(alloc);
    out.extend_from_slice(b"\nthe handlers up to the end of ")?;
    put_named_place(&mut out, text, list, place)?;
    out.extend_from_slice(b" pass a limit: they have ")?;
    put_number(&mut out, rows)?;
    out.extend_from_slice(b" choices, and an image has at most ")?;
    put_number(&mut out, ROWS)?;
    out.extend_from_slice(b" rows of handlers\n")?;
    Ok(out)
}
