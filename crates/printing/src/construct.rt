//! What tokens open and close, and how far a line within that is indented.
ghost use Rattle.std.specs.Prelude.{◌≡◌, ◌≤◌, option_map};
ghost use Rattle.printing.specs.Constructs.{closed, closed_at_start, closed_by_word, closed_in_phrase, columns_within, continued, if_alternative, if_closing, if_declarations, indents, innermost, levels, opened, opened_at_start, opened_by_then, opened_by_word, opened_in, opened_in_phrase, opened_outside, phrase_after, phrase_from, phrase_of_word, phrase_on, phrase_with};

use crate::symbol::Symbol;
use lexer::{Delimiter, Word};

/// What is open at a place of a text.
#[derive(Clone, Copy)]
pub enum Construct {
    /// A parenthesis.
    Parenthesis,
    /// The declarations of a package, a body, a task, a protected object or a block.
    Declarations,
    /// The statements of a body, a block, a loop or a part of an `if`.
    Statements,
    /// The alternatives of a `case`, or handlers.
    Alternatives,
    /// The statements of one of these.
    Alternative,
    /// The components of a record.
    Components,
}

/// How far a statement or declaration is read: its first part ends with a semicolon, or with the token that opens what is within.
#[derive(Clone, Copy)]
pub enum Phrase {
    /// The next token begins one.
    Start,
    /// From `if` or `elsif` on, up to `then`.
    Condition,
    /// From `case` on, up to `is`.
    Selector,
    /// From a `when` that begins an alternative on, up to the arrow.
    Choices,
    /// From `for` or `while` on, up to `loop`.
    Iteration,
    /// From `type` or `subtype` on.
    Type,
    /// Any other one.
    Other,
}

/// The most levels that are indented: what is further within has the columns of this one.
pub const DEEPEST_LEVEL: usize = 100;

/// What was opened last.
pub(crate) fn innermost(constructs: &[Construct]) -> Option<Construct>
    ensures { result ≡ innermost constructs.now }
{
    constructs.last().copied()
}

fn if_declarations(inner: Option<Construct>) -> usize
    ensures value { result ≡ if_declarations inner }
    ensures few { result ≤ 1 }
{
    match inner {
        Some(Construct::Declarations) => 1,
        _ => 0,
    }
}

fn if_alternative(inner: Option<Construct>) -> usize
    ensures value { result ≡ if_alternative inner }
    ensures few { result ≤ 1 }
{
    match inner {
        Some(Construct::Alternative) => 1,
        _ => 0,
    }
}

// How many of the innermost constructs a word closes that begins a phrase.
fn closed_by_word(word: Word, inner: Option<Construct>) -> usize
    ensures { result ≡ closed_by_word word inner }
{
    match word {
        Word::Begin => if_declarations(inner),
        Word::When => if_alternative(inner),
        Word::End => 1 + if_alternative(inner),
        Word::Else | Word::Elsif | Word::Exception | Word::Or | Word::Private => 1,
        _ => 0,
    }
}

// What such a word opens.
fn opened_by_word(word: Word) -> Option<Construct>
    ensures { result ≡ opened_by_word word }
{
    match word {
        Word::Begin | Word::Else | Word::Loop | Word::Or | Word::Select => {
            Some(Construct::Statements)
        }
        Word::Declare | Word::Private => Some(Construct::Declarations),
        Word::Exception => Some(Construct::Alternatives),
        _ => None,
    }
}

// The phrase that such a word begins.
fn phrase_of_word(word: Word) -> Phrase
    ensures { result ≡ phrase_of_word word }
{
    match word {
        Word::If | Word::Elsif => Phrase::Condition,
        Word::Case => Phrase::Selector,
        Word::When => Phrase::Choices,
        Word::For | Word::While => Phrase::Iteration,
        Word::Type | Word::Subtype => Phrase::Type,
        _ => Phrase::Other,
    }
}

// After `and` it belongs to an operator.
fn opened_by_then(previous: Option<Symbol>) -> Option<Construct>
    ensures { result ≡ opened_by_then previous }
{
    match previous {
        Some(Symbol::Word(Word::And)) => None,
        _ => Some(Construct::Statements),
    }
}

// What a token opens within a phrase.
fn opened_in(phrase: Phrase, previous: Option<Symbol>, symbol: Symbol) -> Option<Construct>
    ensures { result ≡ opened_in phrase previous symbol }
{
    match (phrase, symbol) {
        (Phrase::Condition, Symbol::Word(Word::Then)) => opened_by_then(previous),
        (Phrase::Selector, Symbol::Word(Word::Is)) => Some(Construct::Alternatives),
        (Phrase::Choices, Symbol::Delimiter(Delimiter::Arrow)) => Some(Construct::Alternative),
        (Phrase::Iteration, Symbol::Word(Word::Loop)) => Some(Construct::Statements),
        (Phrase::Type, Symbol::Word(Word::Record)) => Some(Construct::Components),
        (Phrase::Other, Symbol::Word(Word::Is)) => Some(Construct::Declarations),
        _ => None,
    }
}

fn opened_at_start(symbol: Symbol) -> Option<Construct>
    ensures { result ≡ opened_at_start symbol }
{
    match symbol {
        Symbol::Word(word) => opened_by_word(word),
        _ => None,
    }
}

fn opened_in_phrase(phrase: Phrase, previous: Option<Symbol>, symbol: Symbol) -> Option<Construct>
    ensures { result ≡ opened_in_phrase phrase previous symbol }
{
    match phrase {
        Phrase::Start => opened_at_start(symbol),
        _ => opened_in(phrase, previous, symbol),
    }
}

// Within a parenthesis nothing but another one is opened.
fn opened_outside(
    inner: Option<Construct>,
    phrase: Phrase,
    previous: Option<Symbol>,
    symbol: Symbol,
) -> Option<Construct>
    ensures { result ≡ opened_outside inner phrase previous symbol }
{
    match inner {
        Some(Construct::Parenthesis) => None,
        _ => opened_in_phrase(phrase, previous, symbol),
    }
}

/// What a token opens, by what was opened last, the phrase and the token before it.
pub(crate) fn opened(
    inner: Option<Construct>,
    phrase: Phrase,
    previous: Option<Symbol>,
    symbol: Symbol,
) -> Option<Construct>
    ensures { result ≡ opened inner phrase previous symbol }
{
    match symbol {
        Symbol::Delimiter(Delimiter::LeftParenthesis) => Some(Construct::Parenthesis),
        _ => opened_outside(inner, phrase, previous, symbol),
    }
}

fn if_closing(symbol: Symbol) -> usize
    ensures { result ≡ if_closing symbol }
{
    match symbol {
        Symbol::Delimiter(Delimiter::RightParenthesis) => 1,
        _ => 0,
    }
}

fn closed_at_start(symbol: Symbol, inner: Option<Construct>) -> usize
    ensures { result ≡ closed_at_start symbol inner }
{
    match symbol {
        Symbol::Word(word) => closed_by_word(word, inner),
        _ => 0,
    }
}

fn closed_in_phrase(phrase: Phrase, symbol: Symbol, inner: Option<Construct>) -> usize
    ensures { result ≡ closed_in_phrase phrase symbol inner }
{
    match phrase {
        Phrase::Start => closed_at_start(symbol, inner),
        _ => 0,
    }
}

/// How many of the innermost constructs a token closes.
pub(crate) fn closed(inner: Option<Construct>, phrase: Phrase, symbol: Symbol) -> usize
    ensures { result ≡ closed inner phrase symbol }
{
    match inner {
        Some(Construct::Parenthesis) => if_closing(symbol),
        _ => closed_in_phrase(phrase, symbol, inner),
    }
}

fn phrase_from(symbol: Symbol) -> Phrase
    ensures { result ≡ phrase_from symbol }
{
    match symbol {
        Symbol::Word(word) => phrase_of_word(word),
        _ => Phrase::Other,
    }
}

// The phrase after a token that opens nothing within it.
fn phrase_on(phrase: Phrase, symbol: Symbol) -> Phrase
    ensures { result ≡ phrase_on phrase symbol }
{
    match (phrase, symbol) {
        (_, Symbol::Delimiter(Delimiter::Semicolon)) => Phrase::Start,
        (Phrase::Start, _) => phrase_from(symbol),
        _ => phrase,
    }
}

// The phrase after a token that opens this.
fn phrase_with(opened: Option<Construct>, phrase: Phrase, symbol: Symbol) -> Phrase
    ensures { result ≡ phrase_with opened phrase symbol }
{
    match opened {
        Some(Construct::Parenthesis) | None => phrase_on(phrase, symbol),
        Some(_) => Phrase::Start,
    }
}

/// The phrase after a token: within a parenthesis it goes on.
pub(crate) fn phrase_after(
    inner: Option<Construct>,
    phrase: Phrase,
    previous: Option<Symbol>,
    symbol: Symbol,
) -> Phrase
    ensures { result ≡ phrase_after inner phrase previous symbol }
{
    match inner {
        Some(Construct::Parenthesis) => phrase,
        _ => phrase_with(opened(inner, phrase, previous, symbol), phrase, symbol),
    }
}

fn indents(construct: Construct) -> bool
    ensures { result ≡ indents construct }
{
    !matches!(construct, Construct::Parenthesis)
}

// How many of these indent what is within.
fn levels(constructs: &[Construct]) -> usize
    ensures { result ≡ levels constructs.now }
{
    constructs
        .iter()
        .filter(|construct| indents(**construct))
        .count()
}

/// The columns before a line within these.
pub(crate) fn columns_within(constructs: &[Construct]) -> usize
    ensures value { result ≡ columns_within constructs.now }
    ensures few { result ≤ 300 }
{
    3 * levels(constructs).min(DEEPEST_LEVEL)
}

/// The further columns of a line that goes on with a phrase and whose first token opens this.
pub(crate) fn continued(opened: Option<Construct>, phrase: Phrase) -> usize
    ensures value { result ≡ continued opened phrase }
    ensures few { result ≤ 2 }
{
    match (phrase, opened) {
        (Phrase::Start, _) => 0,
        (_, Some(Construct::Parenthesis) | None) => 2,
        (_, Some(_)) => 0,
    }
}
