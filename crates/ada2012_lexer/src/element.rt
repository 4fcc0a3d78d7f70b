//! Lexical elements, one at a time.
ghost use Rattle.std.specs.Prelude.{◌≡◌, ◌<◌, ◌≤◌, ◌+◌, IsTrue, drop, length};
ghost use Rattle.std.specs.Char.{is_ascii_alphabetic};
ghost use Rattle.lexer.specs.Characters.{begins};
ghost use Rattle.lexer.specs.Elements.{upper_case};
ghost use Rattle.base.specs.declared.limits.TheConstants.{NAME_LIMIT};
ghost use Rattle.ada2012_lexer.specs.Elements.{allows_tick, broken, character_at, delimiter_at, element_at, name_at, name_kind, not_in_string, number_at, number_kind, string_at, token};
ghost use Rattle.ada2012_lexer.specs.Words.{word_of};
ghost use Rattle.ada2012_lexer.specs.Shapes.{IsElementWithin, literal_of};

use crate::character::{
    begins_with_line_character, has_single_underlines, is_separator, line_length, word_length,
};
use crate::delimiter::{compound_at, simple_at};
use crate::literal::{Literal, literal_at};
use crate::quoted::{closes_character, string_end};
use crate::reserved::word_of;
use crate::value::value_of;
use crate::{Delimiter, FaultKind, TokenKind};
use arrayvec::ArrayVec;
use base::Text;
use base::limits::NAME_LIMIT;
use lexer::Word;

/// What is at the front of a text.
#[derive(Drop)]
pub(crate) enum ElementKind {
    /// A space or a format effector.
    Separator,
    Comment,
    Token(TokenKind),
}

/// What is at the front of a text, of so many bytes.
#[derive(Drop)]
pub(crate) struct Element {
    pub(crate) kind: ElementKind,
    pub(crate) length: usize,
}

/// What is wrong at the front of a text, so many bytes from there on.
#[derive(Clone, Copy)]
pub(crate) struct Broken {
    pub(crate) kind: FaultKind,
    pub(crate) offset: usize,
}

fn token(kind: TokenKind, length: usize) -> Result<Element, Broken>
    ensures { result ≡ token kind length }
{
    Ok(Element {
        kind: ElementKind::Token(kind),
        length,
    })
}

fn broken_at_start(kind: FaultKind) -> Result<Element, Broken>
    ensures { result ≡ broken kind }
{
    Err(Broken { kind, offset: 0 })
}

impl TokenKind {
    /// Whether an apostrophe after such a token is a delimiter, and does not begin a character literal.
    pub(crate) fn allows_tick(&self) -> bool
        ensures { result ≡ allows_tick self.now }
    {
        match self {
            TokenKind::Identifier(_) | TokenKind::Character(_) | TokenKind::StringLiteral => true,
            TokenKind::Word(word) => *word == Word::All,
            TokenKind::Delimiter(delimiter) => *delimiter == Delimiter::RightParenthesis,
            TokenKind::Integer(_) | TokenKind::Real => false,
        }
    }
}

// The characters of an identifier, with the letters in upper case.
fn name_of(element: &[u8]) -> Text
    requires { length element.now ≤ NAME_LIMIT }
    ensures { result ≡ upper_case element.now }
{
    let mut bytes = ArrayVec::new();
    for character in element {
        bytes.push(character.to_ascii_uppercase());
    }
    Text::of(bytes)
}

// What an identifier or a reserved word of this name is.
fn name_kind(name: Text) -> TokenKind
    ensures { result ≡ name_kind name (word_of name) }
{
    match word_of(name.as_bytes()) {
        Some(word) => TokenKind::Word(word),
        None => TokenKind::Identifier(name),
    }
}

#[tactic(auto, unfolding(crate::specs::Elements::name_at))]
fn read_name(text: &[u8]) -> Result<Element, Broken>
    requires { IsTrue (begins is_ascii_alphabetic text.now) }
    ensures value { result ≡ name_at text.now }
    ensures in_text { IsElementWithin (length text.now) result }
{
    let length = word_length(text);
    let element = &text[..length];
    if !has_single_underlines(element) {
        broken_at_start(FaultKind::IdentifierUnderline)
    } else if length > NAME_LIMIT {
        broken_at_start(FaultKind::LongIdentifier)
    } else {
        token(name_kind(name_of(element)), length)
    }
}

fn number_kind(literal: Literal<'_>) -> TokenKind
    ensures { result ≡ number_kind (literal_of literal.entry) }
{
    if literal.real {
        TokenKind::Real
    } else {
        TokenKind::Integer(value_of(literal))
    }
}

#[tactic(auto, unfolding(crate::specs::Elements::number_at))]
fn read_number(text: &[u8]) -> Result<Element, Broken>
    ensures value { result ≡ number_at text.now }
    ensures in_text { IsElementWithin (length text.now) result }
{
    match literal_at(text) {
        Ok((literal, rest)) => token(number_kind(literal), text.len() - rest.len()),
        Err(kind) => broken_at_start(kind),
    }
}

// What is wrong at a place, counted from the first character after the first quotation mark, at which a string literal can't go on.
fn not_in_string(at: usize, text: &[u8]) -> Result<Element, Broken>
    requires { at ≤ length text.now }
    ensures value { result ≡ not_in_string at (drop at text.now) }
    ensures in_text { IsElementWithin (length text.now + 1) result }
{
    if begins_with_line_character(&text[at..]) {
        Err(Broken {
            kind: FaultKind::StrayCharacter,
            offset: at + 1,
        })
    } else {
        broken_at_start(FaultKind::OpenString)
    }
}

// Reads a string literal from the character after its first quotation mark on.
#[tactic(auto, unfolding(crate::specs::Elements::string_at))]
fn read_string(text: &[u8]) -> Result<Element, Broken>
    ensures value { result ≡ string_at text.now }
    ensures in_text { IsElementWithin (length text.now + 1) result }
{
    match string_end(text) {
        Ok(at) => token(TokenKind::StringLiteral, at + 1),
        Err(at) => not_in_string(at, text),
    }
}

// Reads a character literal from the character after its first apostrophe on.
fn read_character(text: &[u8]) -> Result<Element, Broken>
    ensures value { result ≡ character_at text.now }
    ensures in_text { IsElementWithin (length text.now + 1) result }
{
    match text {
        [c, ..] if closes_character(text) => token(TokenKind::Character(*c), 3),
        _ => broken_at_start(FaultKind::OpenCharacter),
    }
}

#[tactic(auto, unfolding(crate::specs::Elements::delimiter_at))]
fn read_delimiter(text: &[u8]) -> Result<Element, Broken>
    ensures value { result ≡ delimiter_at text.now }
    ensures in_text { IsElementWithin (length text.now) result }
{
    match compound_at(text) {
        Some(delimiter) => token(TokenKind::Delimiter(delimiter), 2),
        None => match simple_at(text) {
            Some(delimiter) => token(TokenKind::Delimiter(delimiter), 1),
            None => broken_at_start(FaultKind::StrayCharacter),
        },
    }
}

/// Reads what is at the front of a text, after a token that allows a tick or one that doesn't.
#[tactic(auto, unfolding(crate::specs::Elements::element_at))]
pub(crate) fn read_element(tick: bool, text: &[u8]) -> Result<Element, Broken>
    requires { 0 < length text.now }
    ensures value { result ≡ element_at tick text.now }
    ensures in_text { IsElementWithin (length text.now) result }
{
    let [first, rest @ ..] = text else {
        unreachable!()
    };
    match first {
        b'\t'..=b'\r' | b' ' => Ok(Element {
            kind: ElementKind::Separator,
            length: 1,
        }),
        b'a'..=b'z' | b'A'..=b'Z' => read_name(text),
        b'0'..=b'9' => read_number(text),
        b'"' => read_string(rest),
        b'-' if matches!(rest, [b'-', ..]) => Ok(Element {
            kind: ElementKind::Comment,
            length: line_length(&rest[1..]) + 2,
        }),
        b'\'' if !tick => read_character(rest),
        _ => read_delimiter(text),
    }
}
