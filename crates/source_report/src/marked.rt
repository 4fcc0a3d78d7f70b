//! Lines of texts as they are shown, with a mark.
ghost use Rattle.std.specs.Prelude.{◌≡◌, ◌++◌, drop, map, OnOk, take};
ghost use Rattle.source_report.specs.Marked.{blank, first_line, is_long, last_line, marked, marked_near, marked_place, near_back, near_front, shown};

use crate::pieces::{first_line, last_line};
use std::alloc::AllocError;

/// The most columns of a line that is shown whole.
pub const WIDTH: usize = 160;

/// How many columns of a longer one are shown on either side of the mark.
pub const SIDE: usize = 80;

// As which character a byte is shown.
fn shown(c: u8) -> u8
    ensures { result ≡ shown c }
{
    match c {
        b'\t' | 32..=126 => c,
        _ => b'?',
    }
}

// What is as wide as the byte is shown.
fn blank(c: u8) -> u8
    ensures { result ≡ blank c }
{
    match c {
        b'\t' => b'\t',
        _ => b' ',
    }
}

/// Adds the bytes as they are shown.
pub(crate) fn put_shown(out: &mut Vec<u8>, piece: &[u8]) -> Result<(), AllocError>
    ensures { OnOk result (out.new.items ≡ out.old.items ++ map shown piece.now) }
{
    for c in piece {
        out.push(shown(*c))?;
    }
    Ok(())
}

// Adds what is as wide as the bytes are shown.
fn put_blank(out: &mut Vec<u8>, piece: &[u8]) -> Result<(), AllocError>
    ensures { OnOk result (out.new.items ≡ out.old.items ++ map blank piece.now) }
{
    for c in piece {
        out.push(blank(*c))?;
    }
    Ok(())
}

// Adds a line by what stands on it in front of a place and behind it, and the mark.
fn put_marked(out: &mut Vec<u8>, front: &[u8], back: &[u8]) -> Result<(), AllocError>
    ensures { OnOk result (out.new.items ≡ out.old.items ++ marked front.now back.now) }
{
    put_shown(out, front)?;
    put_shown(out, back)?;
    out.extend_from_slice(b"\n")?;
    put_blank(out, front)?;
    out.extend_from_slice(b"^\n")
}

// Whether the line is too long to be shown whole.
fn is_long(front: &[u8], back: &[u8]) -> bool
    ensures { result ≡ is_long front.now back.now }
{
    front.len() > WIDTH || back.len() > WIDTH - front.len()
}

// What is shown of the line in front of the place.
fn near_front<'a>(front: &'a [u8], back: &[u8]) -> &'a [u8]
    ensures { result.now ≡ near_front front.now back.now }
{
    if is_long(front, back) {
        &front[front.len().saturating_sub(SIDE)..]
    } else {
        front
    }
}

// What is shown of it from the place on.
fn near_back<'a>(front: &[u8], back: &'a [u8]) -> &'a [u8]
    ensures { result.now ≡ near_back front.now back.now }
{
    if is_long(front, back) {
        &back[..SIDE.min(back.len())]
    } else {
        back
    }
}

// Adds a line by what stands on it in front of a place and behind it, as much as is shown, and the mark.
fn put_marked_near(out: &mut Vec<u8>, front: &[u8], back: &[u8]) -> Result<(), AllocError>
    ensures { OnOk result (out.new.items ≡ out.old.items ++ marked_near front.now back.now) }
{
    put_marked(out, near_front(front, back), near_back(front, back))
}

/// Adds the line of a place of the text, and the mark below it.
pub(crate) fn put_marked_place(out: &mut Vec<u8>, text: &[u8], place: u32) -> Result<(), AllocError>
    ensures { OnOk result (out.new.items ≡ out.old.items ++ marked_place text.now place) }
{
    put_marked_near(out, line_in_front(text, place), line_from(text, place))
}

// What stands on the line of a place in front of it.
fn line_in_front(text: &[u8], place: u32) -> &[u8]
    ensures { result.now ≡ last_line (take place text.now) }
{
    last_line(&text[..(place as usize).min(text.len())])
}

// What stands on the line of a place from there on.
fn line_from(text: &[u8], place: u32) -> &[u8]
    ensures { result.now ≡ first_line (drop place text.now) }
{
    first_line(&text[(place as usize).min(text.len())..])
}
