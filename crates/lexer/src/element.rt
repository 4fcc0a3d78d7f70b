//! Lexical elements, one at a time.
ghost use Rattle.std.specs.Prelude.{◌≡◌, ◌<◌, length, pos, option_map};
ghost use Rattle.lexer.specs.Reading.{broken, kind_or, reserved, value_in_range, word_at, numeral_at, label_at, comment_at, compound_of, simple_of, delimiter_at, element_at};

use crate::characters::{
    begins_with_quotation_mark, comment_length, has_single_underlines, is_on_line, numeral_length,
    runs_on, string_length, word_length,
};
use crate::spelled::{label_of, name_of};
use crate::word::reserved_word;
use crate::{Delimiter, TokenKind};
use base::Text;
use base::faults::{STRAY_CHARACTER, WRONG_IDENTIFIER, WRONG_LABEL, WRONG_LITERAL};
use base::limits::{LABEL_LIMIT, LARGEST_NUMBER, NAME_LIMIT};
use base::names::has_label_characters;

/// What is at the front of a text: a token, or white space or a comment, of so many bytes.
#[derive(Drop)]
pub struct Element {
    pub kind: Option<TokenKind>,
    pub length: usize,
}

/// The rule that is broken at the front of a text, and the place from there on.
#[derive(Clone, Copy)]
pub struct Broken {
    pub number: u8,
    pub offset: usize,
}

impl Element {
    fn token(kind: TokenKind, length: usize) -> Element
        ensures { result ≡ record { kind = Some kind; length = length } }
    {
        Element {
            kind: Some(kind),
            length,
        }
    }

    fn blank(length: usize) -> Element
        ensures { result ≡ record { kind = None; length = length } }
    {
        Element { kind: None, length }
    }
}

fn broken_at_start(number: u8) -> Result<Element, Broken>
    ensures { result ≡ broken number }
{
    Err(Broken { number, offset: 0 })
}

/// What two characters are together.
#[derive(Clone, Copy)]
pub enum Compound {
    Delimiter(Delimiter),
    /// A compound delimiter of the standard that the language leaves out.
    LeftOut,
}

fn compound_delimiter(first: u8, second: u8) -> Option<Compound>
    ensures { result ≡ compound_of first second }
{
    match (first, second) {
        (b'*', b'*') | (b'<', b'<') | (b'>', b'>') | (b'<', b'>') => Some(Compound::LeftOut),
        (b'.', b'.') => Some(Compound::Delimiter(Delimiter::DoubleDot)),
        (b'/', b'=') => Some(Compound::Delimiter(Delimiter::Inequality)),
        (b':', b'=') => Some(Compound::Delimiter(Delimiter::Assignment)),
        (b'<', b'=') => Some(Compound::Delimiter(Delimiter::LessOrEqual)),
        (b'=', b'>') => Some(Compound::Delimiter(Delimiter::Arrow)),
        (b'>', b'=') => Some(Compound::Delimiter(Delimiter::GreaterOrEqual)),
        _ => None,
    }
}

fn simple_delimiter(character: u8) -> Option<Delimiter>
    ensures { result ≡ simple_of character }
{
    match character {
        b'\'' => Some(Delimiter::Apostrophe),
        b'(' => Some(Delimiter::LeftParenthesis),
        b')' => Some(Delimiter::RightParenthesis),
        b'*' => Some(Delimiter::Asterisk),
        b'+' => Some(Delimiter::Plus),
        b',' => Some(Delimiter::Comma),
        b'-' => Some(Delimiter::Minus),
        b'.' => Some(Delimiter::Dot),
        b'/' => Some(Delimiter::Slash),
        b':' => Some(Delimiter::Colon),
        b';' => Some(Delimiter::Semicolon),
        b'<' => Some(Delimiter::LessThan),
        b'=' => Some(Delimiter::Equals),
        b'>' => Some(Delimiter::GreaterThan),
        b'|' => Some(Delimiter::VerticalLine),
        _ => None,
    }
}

/// The value of a numeral, if it is at most 2**63 - 1.
#[tactic(auto, unfolding(crate::specs::Reading::value_in_range))]
fn value(numeral: &[u8]) -> Option<i64>
    ensures { result ≡ option_map pos (value_in_range numeral.now) }
{
    let mut value = 0;
    for c in numeral {
        if c.is_ascii_digit() {
            let digit = u64::from(*c - b'0');
            if value > (LARGEST_NUMBER - digit) / 10 {
                return None;
            }
            value = 10 * value + digit;
        }
    }
    Some(value as i64)
}

/// The kind of an identifier or a reserved word of this name.
fn kind_of_name(name: Text) -> TokenKind
    ensures { result ≡ kind_or name (reserved name) }
{
    match reserved_word(name.as_bytes()) {
        Some(word) => TokenKind::Word(word),
        None => TokenKind::Identifier(name),
    }
}

/// Reads an identifier or a reserved word.
#[tactic(auto, unfolding(crate::specs::Reading::word_at))]
fn read_word(text: &[u8]) -> Result<Element, Broken>
    ensures { result ≡ word_at text.now }
{
    let length = word_length(text);
    let element = &text[..length];
    if has_single_underlines(element) && length <= NAME_LIMIT {
        Ok(Element::token(kind_of_name(name_of(element)), length))
    } else {
        broken_at_start(WRONG_IDENTIFIER)
    }
}

/// Reads a numeral.
#[tactic(auto, unfolding(crate::specs::Reading::numeral_at))]
fn read_numeral(text: &[u8]) -> Result<Element, Broken>
    ensures { result ≡ numeral_at text.now }
{
    let length = numeral_length(text);
    let element = &text[..length];
    if has_single_underlines(element) && !runs_on(&text[length..]) {
        match value(element) {
            Some(value) => Ok(Element::token(TokenKind::Number(value), length)),
            None => broken_at_start(WRONG_LITERAL),
        }
    } else {
        broken_at_start(WRONG_LITERAL)
    }
}

/// Reads a label from the character after its first quotation mark on.
#[tactic(auto, unfolding(crate::specs::Reading::label_at))]
fn read_label(text: &[u8]) -> Result<Element, Broken>
    ensures { result ≡ label_at text.now }
{
    let length = string_length(text);
    let inner = &text[..length];
    if begins_with_quotation_mark(&text[length..])
        && has_label_characters(inner)
        && length > 0
        && length <= LABEL_LIMIT
    {
        Ok(Element::token(TokenKind::Label(label_of(inner)), length + 2))
    } else {
        broken_at_start(WRONG_LABEL)
    }
}

/// Reads a comment from the character after its hyphens on.
#[tactic(auto, unfolding(crate::specs::Reading::comment_at))]
fn read_comment(text: &[u8]) -> Result<Element, Broken>
    ensures { result ≡ comment_at text.now }
{
    let length = comment_length(text);
    if is_on_line(&text[length..]) {
        Err(Broken {
            number: STRAY_CHARACTER,
            offset: length + 2,
        })
    } else {
        Ok(Element::blank(length + 2))
    }
}

/// Reads a delimiter, given its first character and the text after it.
#[tactic(auto, unfolding(crate::specs::Reading::delimiter_at))]
fn read_delimiter(first: u8, rest: &[u8]) -> Result<Element, Broken>
    ensures { result ≡ delimiter_at first rest.now }
{
    let compound = match rest {
        [second, ..] => compound_delimiter(first, *second),
        [] => None,
    };
    match compound {
        Some(Compound::Delimiter(delimiter)) => Ok(Element::token(
            TokenKind::Delimiter(delimiter),
            2,
        )),
        Some(Compound::LeftOut) => broken_at_start(STRAY_CHARACTER),
        None => match simple_delimiter(first) {
            Some(delimiter) => Ok(Element::token(TokenKind::Delimiter(delimiter), 1)),
            None => broken_at_start(STRAY_CHARACTER),
        },
    }
}

/// Reads what is at the front of a text.
#[tactic(auto, unfolding(crate::specs::Reading::element_at))]
pub fn read_element(text: &[u8]) -> Result<Element, Broken>
    requires { 0 < length text.now }
    ensures { result ≡ element_at text.now }
{
    let [first, rest @ ..] = text else {
        unreachable!()
    };
    match first {
        b'\t' | b'\n' | b'\r' | b' ' => Ok(Element::blank(1)),
        b'a'..=b'z' | b'A'..=b'Z' => read_word(text),
        b'0'..=b'9' => read_numeral(text),
        b'"' => read_label(rest),
        b'-' if matches!(rest, [b'-', ..]) => read_comment(&rest[1..]),
        _ => read_delimiter(*first, rest),
    }
}
