//! Pieces of texts: what is on a line, before a byte, after one.
ghost use Rattle.std.specs.Prelude.{◌≡◌, ◌≤◌, length};
ghost use Rattle.source_report.specs.Marked.{behind, count_to, first_line, last_line, up_to};
ghost use Rattle.source_report.specs.Reports.{behind_lines, numbered_line};

use diagnostics::line_start;

// How many bytes stand in front of the first of this value, or all where there is none.
fn count_to(value: u8, text: &[u8]) -> usize
    ensures count { result ≡ count_to value text.now }
    ensures most { result ≤ length text.now }
{
    for (index, c) in text.iter().enumerate() {
        if *c == value {
            return index;
        }
    }
    text.len()
}

/// What is before the first byte of this value, or all where there is none.
pub(crate) fn up_to(value: u8, text: &[u8]) -> &[u8]
    ensures { result.now ≡ up_to value text.now }
{
    &text[..count_to(value, text)]
}

/// What is after the first byte of this value; nothing where there is none.
pub(crate) fn behind(value: u8, text: &[u8]) -> &[u8]
    ensures { result.now ≡ behind value text.now }
{
    for (index, c) in text.iter().enumerate() {
        if *c == value {
            return &text[index + 1..];
        }
    }
    &[]
}

/// What is on the line after which the text ends.
pub(crate) fn last_line(text: &[u8]) -> &[u8]
    ensures { result.now ≡ last_line text.now }
{
    &text[line_start(text)..]
}

/// What is on the line with which the text begins.
pub(crate) fn first_line(text: &[u8]) -> &[u8]
    ensures { result.now ≡ first_line text.now }
{
    up_to(b'\r', up_to(b'\n', text))
}

// The place behind so many line feeds, or the end where there are fewer.
fn behind_lines(lines: usize, text: &[u8]) -> usize
    ensures place { result ≡ behind_lines lines 0 text.now }
    ensures most { result ≤ length text.now }
{
    let mut left = lines;
    for (index, c) in text.iter().enumerate() {
        if left == 0 {
            return index;
        }
        if *c == b'\n' {
            left -= 1;
        }
    }
    text.len()
}

/// What is on the line of this number, the first being 1.
pub(crate) fn numbered_line(number: usize, text: &[u8]) -> &[u8]
    ensures { result.now ≡ numbered_line number text.now }
{
    first_line(&text[behind_lines(number.saturating_sub(1), text)..])
}
