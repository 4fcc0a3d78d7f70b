//! Where character and string literals end.
ghost use Rattle.std.specs.Prelude.{◌≡◌, ◌≤◌, IsTrue, MatchResult, length, true};
ghost use Rattle.ada2012_lexer.specs.Quoted.{closes_character, string_end};

use crate::character::is_graphic;

/// The place at which a string literal ends, counted from the first character after its first quotation mark; or that of what can't be in it.
pub(crate) fn string_end(text: &[u8]) -> Result<usize, usize>
    ensures value { result ≡ string_end true 0 text.now }
    ensures in_text { MatchResult result (λ at. at ≤ length text.now) (λ at. at ≤ length text.now) }
{
    let mut inside = true;
    let mut at = 0;
    while at < text.len() {
        if text[at] == b'"' {
            inside = !inside;
        } else if !inside {
            return Ok(at);
        } else if !is_graphic(text[at]) {
            return Err(at);
        }
        at += 1;
    }
    if inside { Err(at) } else { Ok(at) }
}

/// Whether a graphic character and an apostrophe are at the front, which close a character literal.
pub(crate) fn closes_character(text: &[u8]) -> bool
    ensures value { result ≡ closes_character text.now }
    ensures two { IsTrue result → 2 ≤ length text.now }
{
    match text {
        [c, d, ..] => is_graphic(*c) && *d == b'\'',
        _ => false,
    }
}
