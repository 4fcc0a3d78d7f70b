//! What is declared with a name like one that isn't visible.
ghost use Rattle.std.specs.Prelude.{◌≡◌, option_map};
ghost use Rattle.remedies.specs.Likeness.{are_exchanged, first_predefined, first_reserved, introduces, is_changed, is_colon, is_like, is_near, is_same, kind_before, like_at, like_later, like_near, name_of, near_declared, near_predefined, near_reserved};

use crate::name::{Name, name_text};
use crate::row::kind_at;
use crate::text_tokens::TextTokens;
use lexer::{Delimiter, Token, TokenKind, Word};

/// What is declared with a name like one that isn't visible. Tokens are given by how many are before them.
#[derive(Clone, Copy)]
pub enum Like {
    /// The declaration of the same name, after the place of the fault: the token of the word that introduces it.
    DeclaredLater(usize),
    /// This token declares a name with one letter more, less or other, or with two exchanged.
    Declared(usize),
    /// The language declares such a name.
    Predefined(Name),
    /// It is a reserved word.
    Reserved(Word),
}

/// Names of fewer letters are like too many others.
pub const LEAST_LETTERS: usize = 3;

/// The names of the language that are written most.
pub const PREDEFINED: [Name; 15] = [
    Name::Integer,
    Name::Natural,
    Name::Positive,
    Name::Boolean,
    Name::Time,
    Name::TimeSpan,
    Name::Clock,
    Name::Milliseconds,
    Name::Microseconds,
    Name::ControlIo,
    Name::RealTime,
    Name::Put,
    Name::Read,
    Name::ConstraintError,
    Name::ProgramError,
];

/// The reserved words for which a misspelled one is a name: those that begin or are a statement, and others and exception.
pub const WORDS_LIKE_NAMES: [Word; 6] = [
    Word::Null,
    Word::Return,
    Word::Exit,
    Word::Raise,
    Word::Others,
    Word::Exception,
];

// Whether the first two letters are exchanged, and nothing else.
fn are_exchanged(first: u8, second: u8, rest: &[u8], other: &[u8]) -> bool
    ensures { result ≡ are_exchanged first second rest.now other.now }
{
    match (rest, other) {
        ([third, rest @ ..], [fourth, other @ ..]) => {
            first == *fourth && second == *third && rest == other
        }
        _ => false,
    }
}

// Whether the first letter is another one, is missing in one of both, or is exchanged with the next, and nothing else.
fn is_changed(name: &[u8], other: &[u8]) -> bool
    ensures { result ≡ is_changed name.now other.now }
{
    match (name, other) {
        ([], [_]) | ([_], []) => true,
        ([first, rest @ ..], [second, after @ ..]) => {
            rest == after
                || rest == other
                || name == after
                || are_exchanged(*first, *second, rest, after)
        }
        _ => false,
    }
}

/// Whether one name is the other one with a letter more, less or other, or with two exchanged.
pub fn is_like(name: &[u8], other: &[u8]) -> bool
    ensures { result ≡ is_like name.now other.now }
{
    let mut same = 0;
    while same < name.len() && same < other.len() && name[same] == other[same] {
        same += 1;
    }
    is_changed(&name[same..], &other[same..])
}

/// The name of an identifier; None of another token.
pub fn name_of(kind: Option<&TokenKind>) -> Option<&[u8]>
    ensures { option_map (λ n. n.now) result ≡ name_of (option_map (λ k. k.now) kind.entry) }
{
    match kind {
        Some(TokenKind::Identifier(name)) => Some(name.as_bytes()),
        _ => None,
    }
}

/// Whether a name that follows is declared by this word, or has its body there.
pub(crate) fn introduces(kind: Option<&TokenKind>) -> bool
    ensures { result ≡ introduces (option_map (λ k. k.now) kind.entry) }
{
    matches!(
        kind,
        Some(TokenKind::Word(
            Word::Procedure
                | Word::Function
                | Word::Entry
                | Word::Task
                | Word::Protected
                | Word::Package
                | Word::Type
                | Word::Subtype
        ))
    )
}

/// Whether it is a colon.
pub(crate) fn is_colon(kind: Option<&TokenKind>) -> bool
    ensures { result ≡ is_colon (option_map (λ k. k.now) kind.entry) }
{
    matches!(kind, Some(TokenKind::Delimiter(Delimiter::Colon)))
}

/// The kind of the token before the one with so many before it.
pub(crate) fn kind_before(number: usize, tokens: &[Token]) -> Option<&TokenKind>
    ensures { option_map (λ k. k.now) result ≡ kind_before number tokens.now }
{
    if number == 0 {
        None
    } else {
        kind_at(number - 1, tokens)
    }
}

/// Whether the other one is this name.
pub(crate) fn is_same(name: &[u8], other: Option<&[u8]>) -> bool
    ensures { result ≡ is_same name.now (option_map (λ n. n.now) other.entry) }
{
    match other {
        Some(other) => name == other,
        None => false,
    }
}

/// Whether the other one is a name like this one.
pub(crate) fn is_near(name: &[u8], other: Option<&[u8]>) -> bool
    ensures { result ≡ is_near name.now (option_map (λ n. n.now) other.entry) }
{
    match other {
        Some(other) => is_like(name, other),
        None => false,
    }
}

// The first of these names of the language that is like it.
fn first_predefined(names: &[Name], name: &[u8]) -> Option<Name>
    ensures { result ≡ first_predefined names.now name.now }
{
    for known in names {
        if is_like(name, name_text(*known)) {
            return Some(*known);
        }
    }
    None
}

// The first of these reserved words that is like it.
fn first_reserved(words: &[Word], name: &[u8]) -> Option<Word>
    ensures { result ≡ first_reserved words.now name.now }
{
    for word in words {
        if is_like(name, word.spelling()) {
            return Some(*word);
        }
    }
    None
}

fn near_reserved(word: Option<Word>) -> Option<Like>
    ensures { result ≡ near_reserved word }
{
    match word {
        Some(word) => Some(Like::Reserved(word)),
        None => None,
    }
}

fn near_predefined(name: &[u8], known: Option<Name>) -> Option<Like>
    ensures { result ≡ near_predefined name.now known }
{
    match known {
        Some(known) => Some(Like::Predefined(known)),
        None => near_reserved(first_reserved(&WORDS_LIKE_NAMES, name)),
    }
}

fn near_declared(name: &[u8], declared: Option<usize>) -> Option<Like>
    ensures { result ≡ near_declared name.now declared }
{
    match declared {
        Some(number) => Some(Like::Declared(number)),
        None => near_predefined(name, first_predefined(&PREDEFINED, name)),
    }
}

fn like_near(name: &[u8], tokens: &TextTokens) -> Option<Like>
    ensures { result ≡ like_near name.now tokens.now }
{
    if name.len() >= LEAST_LETTERS {
        near_declared(name, tokens.first_near(name))
    } else {
        None
    }
}

fn like_later(name: &[u8], tokens: &TextTokens, later: Option<usize>) -> Option<Like>
    ensures { result ≡ like_later name.now tokens.now later }
{
    match later {
        Some(number) => Some(Like::DeclaredLater(number)),
        None => like_near(name, tokens),
    }
}

/// What is declared with a name like the one at this place of a text with these tokens: the same name, which a word introduces after the place; else the first
/// one with a letter more, less or other, or two exchanged, of the text or of the language, or such a reserved word; None where there is no name at the place,
/// or none like it.
pub fn like_at(place: u32, tokens: &TextTokens) -> Option<Like>
    ensures { result ≡ like_at place tokens.now }
{
    let number = tokens.count_before(place);
    let name = name_of(kind_at(number, tokens.tokens()))?;
    like_later(name, tokens, tokens.first_same(name, number))
}
