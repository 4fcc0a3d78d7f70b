//! Tests of the characters of lexical elements.
ghost use Rattle.std.specs.Prelude.{◌≡◌, ◌≤◌, length};
ghost use Rattle.std.specs.List.{list_all, prefix_len};
ghost use Rattle.lexer.specs.Characters as characters;
ghost use Rattle.lexer.specs.Characters.{begins};
ghost use Rattle.lexer.specs.Elements.{has_single_underlines};

fn is_word_character(c: u8) -> bool
    ensures { result ≡ characters.is_word_character c }
{
    c.is_ascii_alphabetic() || c.is_ascii_digit() || c == b'_'
}

fn is_numeral_character(c: u8) -> bool
    ensures { result ≡ characters.is_numeral_character c }
{
    c.is_ascii_digit() || c == b'_'
}

/// Whether a letter or a number sign follows a numeral at once.
pub fn runs_on(rest: &[u8]) -> bool
    ensures { result ≡ begins characters.runs_on rest.now }
{
    match rest {
        [c, ..] => c.is_ascii_alphabetic() || *c == b'#',
        [] => false,
    }
}

/// Whether a quotation mark begins the text.
pub fn begins_with_quotation_mark(text: &[u8]) -> bool
    ensures { result ≡ begins characters.is_quotation_mark text.now }
{
    matches!(text, [b'"', ..])
}

/// Whether a character begins the text, and is no line feed.
pub fn is_on_line(text: &[u8]) -> bool
    ensures { result ≡ begins characters.stays_on_line text.now }
{
    matches!(text, [c, ..] if *c != b'\n')
}

fn is_comment_character(c: u8) -> bool
    ensures { result ≡ characters.is_comment_character c }
{
    matches!(c, b'\t' | b'\r' | b' '..=b'~' | 128..)
}

fn is_string_character(c: u8) -> bool
    ensures { result ≡ characters.is_string_character c }
{
    c != b'"' && c != b'\n'
}

/// Whether each underline is followed by another character, which is no underline.
pub fn has_single_underlines(text: &[u8]) -> bool
    ensures { result ≡ has_single_underlines text.now }
{
    let mut left = text;
    while let [c, rest @ ..] = left {
        if *c == b'_' && matches!(rest, [] | [b'_', ..]) {
            return false;
        }
        left = rest;
    }
    true
}

/// How many characters of a word are at the front of the text.
pub fn word_length(text: &[u8]) -> usize
    ensures value { result ≡ prefix_len characters.is_word_character text.now }
    ensures in_text { result ≤ length text.now }
{
    text.iter().take_while(|c| is_word_character(**c)).count()
}

/// How many characters of a numeral are at the front of the text.
pub fn numeral_length(text: &[u8]) -> usize
    ensures value { result ≡ prefix_len characters.is_numeral_character text.now }
    ensures in_text { result ≤ length text.now }
{
    text.iter()
        .take_while(|c| is_numeral_character(**c))
        .count()
}

/// How many characters of a comment are at the front of the text.
pub fn comment_length(text: &[u8]) -> usize
    ensures value { result ≡ prefix_len characters.is_comment_character text.now }
    ensures in_text { result ≤ length text.now }
{
    text.iter()
        .take_while(|c| is_comment_character(**c))
        .count()
}

/// How many characters of a string are at the front of the text.
pub fn string_length(text: &[u8]) -> usize
    ensures value { result ≡ prefix_len characters.is_string_character text.now }
    ensures in_text { result ≤ length text.now }
{
    text.iter().take_while(|c| is_string_character(**c)).count()
}
