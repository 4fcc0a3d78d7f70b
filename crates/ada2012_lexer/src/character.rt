//! Tests of the characters of lexical elements.
ghost use Rattle.std.specs.Prelude.{◌≡◌, ◌≤◌, length};
ghost use Rattle.std.specs.List.{prefix_len};
ghost use Rattle.std.specs.Char.{is_ascii_digit};
ghost use Rattle.lexer.specs.Characters as lexer_characters;
ghost use Rattle.lexer.specs.Characters.{begins};
ghost use Rattle.lexer.specs.Elements.{has_single_underlines};
ghost use Rattle.ada2012_lexer.specs.Characters as characters;

/// Whether it is a space or a format effector.
pub(crate) fn is_separator(c: u8) -> bool
    ensures { result ≡ characters.is_separator c }
{
    matches!(c, 9..=13 | b' ')
}

/// Whether it is a graphic character, or a byte from 128 on.
pub(crate) fn is_graphic(c: u8) -> bool
    ensures { result ≡ characters.is_graphic c }
{
    matches!(c, 32..=126 | 128..)
}

/// Whether it may be in an identifier.
pub(crate) fn is_word_character(c: u8) -> bool
    ensures { result ≡ lexer_characters.is_word_character c }
{
    c.is_ascii_alphabetic() || c.is_ascii_digit() || c == b'_'
}

fn is_numeral_character(c: u8) -> bool
    ensures { result ≡ lexer_characters.is_numeral_character c }
{
    c.is_ascii_digit() || c == b'_'
}

fn stays_on_line(c: u8) -> bool
    ensures { result ≡ characters.stays_on_line c }
{
    !matches!(c, 10..=13)
}

/// Whether a letter, a digit or an underline begins the text.
pub(crate) fn begins_with_word_character(text: &[u8]) -> bool
    ensures { result ≡ begins lexer_characters.is_word_character text.now }
{
    match text {
        [c, ..] => is_word_character(*c),
        [] => false,
    }
}

/// Whether a digit begins the text.
pub(crate) fn begins_with_digit(text: &[u8]) -> bool
    ensures { result ≡ begins is_ascii_digit text.now }
{
    match text {
        [c, ..] => c.is_ascii_digit(),
        [] => false,
    }
}

/// Whether a character begins the text, and none that ends a line.
pub(crate) fn begins_with_line_character(text: &[u8]) -> bool
    ensures { result ≡ begins characters.stays_on_line text.now }
{
    match text {
        [c, ..] => stays_on_line(*c),
        [] => false,
    }
}

/// Whether each underline is followed by another character, which is no underline.
pub(crate) fn has_single_underlines(text: &[u8]) -> bool
    ensures { result ≡ has_single_underlines text.now }
{
    let mut left = text;
    while let [c, rest @ ..] = left {
        if *c == b'_' && matches!(rest, [] | [b'_', ..]) {
            return false;
        }
        left = rest;
    }
    true
}

/// How many letters, digits and underlines are at the front of the text.
pub(crate) fn word_length(text: &[u8]) -> usize
    ensures value { result ≡ prefix_len lexer_characters.is_word_character text.now }
    ensures in_text { result ≤ length text.now }
{
    text.iter().take_while(|c| is_word_character(**c)).count()
}

/// How many digits and underlines are at the front of the text.
pub(crate) fn numeral_length(text: &[u8]) -> usize
    ensures value { result ≡ prefix_len lexer_characters.is_numeral_character text.now }
    ensures in_text { result ≤ length text.now }
{
    text.iter()
        .take_while(|c| is_numeral_character(**c))
        .count()
}

/// How many characters there are before the line's end.
pub(crate) fn line_length(text: &[u8]) -> usize
    ensures value { result ≡ prefix_len characters.stays_on_line text.now }
    ensures in_text { result ≤ length text.now }
{
    text.iter().take_while(|c| stays_on_line(**c)).count()
}
