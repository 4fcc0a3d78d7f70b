//! Rows of the table of constructs, and whether one fits a place.
ghost use Rattle.std.specs.Prelude.{◌≡◌, option_map};
ghost use Rattle.remedies.specs.Recognition.{fits, fits_tokens, is_in, is_part, kind_at, kind_from_end, kind_before_opener};

use crate::construct::Construct;
use crate::name::{Name, name_text};
use crate::opening::{Opened, Opening};
use lexer::{Delimiter, Token, TokenKind, Word};

/// What a row asks of one token.
#[derive(Clone, Copy)]
pub enum Part {
    /// Nothing is asked; there may be no token.
    Any,
    /// There is no token.
    Nothing,
    /// An identifier.
    Identifier,
    /// The identifier of this name.
    Named(Name),
    /// A number.
    Number,
    /// A label.
    Label,
    /// This delimiter.
    Mark(Delimiter),
    /// This reserved word.
    Reserved(Word),
}

/// What a row asks of what is open at the place.
#[derive(Clone, Copy)]
pub enum Region {
    /// Nothing is asked.
    Anywhere,
    /// Nothing is open.
    Outside,
    /// This is the innermost.
    Within(Opened),
    /// Statements, those of main left out, are the innermost.
    AmongStatements,
    /// The declarations of a body or of a block are the innermost.
    AmongDeclarations,
}

/// A construct, and when the place of a fault is recognized as one: by the fault's number, by what is open there, by the token before the one that opened
/// it, by the three tokens before the place, and by the three from there on.
#[derive(Clone, Copy)]
pub struct Row {
    pub fault: u8,
    pub region: Region,
    pub opener: Part,
    pub third_last: Part,
    pub second_last: Part,
    pub last: Part,
    pub here: Part,
    pub second: Part,
    pub third: Part,
    pub construct: Construct,
}

fn is_part(part: Part, kind: Option<&TokenKind>) -> bool
    ensures { result ≡ is_part part (option_map (λ k. k.now) kind.entry) }
{
    match (part, kind) {
        (Part::Any, _) => true,
        (Part::Nothing, None) => true,
        (Part::Identifier, Some(TokenKind::Identifier(_))) => true,
        (Part::Named(name), Some(TokenKind::Identifier(text))) => {
            text.as_bytes() == name_text(name)
        }
        (Part::Number, Some(TokenKind::Number(_))) => true,
        (Part::Label, Some(TokenKind::Label(_))) => true,
        (Part::Mark(delimiter), Some(TokenKind::Delimiter(found))) => *found == delimiter,
        (Part::Reserved(word), Some(TokenKind::Word(found))) => *found == word,
        _ => false,
    }
}

pub(crate) fn is_in(region: Region, opening: Option<Opening>) -> bool
    ensures { result ≡ is_in region opening }
{
    match (region, opening) {
        (Region::Anywhere, _) => true,
        (Region::Outside, None) => true,
        (Region::Within(opened), Some(opening)) => opening.opened == opened,
        (Region::AmongStatements, Some(opening)) => matches!(
            opening.opened,
            Opened::Statements | Opened::Block | Opened::If | Opened::Case | Opened::Loop
        ),
        (Region::AmongDeclarations, Some(opening)) => {
            matches!(opening.opened, Opened::Declarations | Opened::Declare)
        }
        _ => false,
    }
}

/// The kind of the token with so many before it; None where there are no more.
pub fn kind_at(number: usize, tokens: &[Token]) -> Option<&TokenKind>
    ensures { option_map (λ k. k.now) result ≡ kind_at number tokens.now }
{
    match tokens.get(number) {
        Some(token) => Some(&token.kind),
        None => None,
    }
}

// The kind of the token with so many after it.
pub(crate) fn kind_from_end(number: usize, tokens: &[Token]) -> Option<&TokenKind>
    ensures { option_map (λ k. k.now) result ≡ kind_from_end number tokens.now }
{
    if number < tokens.len() {
        kind_at(tokens.len() - 1 - number, tokens)
    } else {
        None
    }
}

// The kind of the token before the one that opened this.
fn kind_before_opener(opening: Option<Opening>, tokens: &[Token]) -> Option<&TokenKind>
    ensures { option_map (λ k. k.now) result ≡ kind_before_opener opening tokens.now }
{
    match opening {
        Some(opening) if opening.before > 0 => kind_at(opening.before - 1, tokens),
        _ => None,
    }
}

/// Whether the row fits a fault of this number between two parts of a text's tokens, by the tokens next to it alone.
pub(crate) fn fits_tokens(row: &Row, fault: u64, front: &[Token], back: &[Token]) -> bool
    ensures { result ≡ fits_tokens row.now fault front.now back.now }
{
    u64::from(row.fault) == fault
        && is_part(row.third_last, kind_from_end(2, front))
        && is_part(row.second_last, kind_from_end(1, front))
        && is_part(row.last, kind_from_end(0, front))
        && is_part(row.here, kind_at(0, back))
        && is_part(row.second, kind_at(1, back))
        && is_part(row.third, kind_at(2, back))
}

/// Whether the row fits a fault of this number between two parts of a text's tokens, where this is open.
pub(crate) fn fits(
    row: &Row,
    fault: u64,
    front: &[Token],
    back: &[Token],
    opening: Option<Opening>,
) -> bool
    ensures { result ≡ fits row.now fault front.now back.now opening }
{
    fits_tokens(row, fault, front, back)
        && is_in(row.region, opening)
        && is_part(row.opener, kind_before_opener(opening, front))
}
