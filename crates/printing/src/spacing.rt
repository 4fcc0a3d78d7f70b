//! Which tokens of a line have a space between them.
ghost use Rattle.std.specs.Prelude.{◌≡◌};
ghost use Rattle.printing.specs.Spacing.{are_joined, begins_operand, ends_operand, is_dot, is_prefix, is_selector, is_sign, joins_next, joins_previous, keeps_columns, precedes_sign, spaces_between};

use crate::symbol::Symbol;
use lexer::Delimiter;

// Whether no space precedes the token.
fn joins_previous(symbol: Symbol) -> bool
    ensures { result ≡ joins_previous symbol }
{
    matches!(
        symbol,
        Symbol::Delimiter(
            Delimiter::RightParenthesis
                | Delimiter::Comma
                | Delimiter::Semicolon
                | Delimiter::Apostrophe
        )
    )
}

// Whether no space follows it.
fn joins_next(symbol: Symbol) -> bool
    ensures { result ≡ joins_next symbol }
{
    matches!(
        symbol,
        Symbol::Delimiter(Delimiter::LeftParenthesis | Delimiter::Apostrophe)
    )
}

fn is_dot(symbol: Symbol) -> bool
    ensures { result ≡ is_dot symbol }
{
    matches!(symbol, Symbol::Delimiter(Delimiter::Dot))
}

// Whether a dot may select it.
fn is_selector(symbol: Symbol) -> bool
    ensures { result ≡ is_selector symbol }
{
    matches!(symbol, Symbol::Identifier | Symbol::Word(_))
}

// Whether it may be the last token of what precedes a dot.
fn is_prefix(symbol: Symbol) -> bool
    ensures { result ≡ is_prefix symbol }
{
    matches!(
        symbol,
        Symbol::Identifier | Symbol::Delimiter(Delimiter::RightParenthesis)
    )
}

/// Whether it is a sign, unary or binary.
pub(crate) fn is_sign(symbol: Symbol) -> bool
    ensures { result ≡ is_sign symbol }
{
    matches!(
        symbol,
        Symbol::Delimiter(Delimiter::Plus | Delimiter::Minus)
    )
}

fn ends_operand(symbol: Symbol) -> bool
    ensures { result ≡ ends_operand symbol }
{
    matches!(
        symbol,
        Symbol::Identifier
            | Symbol::Number
            | Symbol::Label
            | Symbol::Delimiter(Delimiter::RightParenthesis)
    )
}

fn begins_operand(symbol: Symbol) -> bool
    ensures { result ≡ begins_operand symbol }
{
    matches!(
        symbol,
        Symbol::Identifier | Symbol::Number | Symbol::Delimiter(Delimiter::LeftParenthesis)
    )
}

/// Whether a sign after this token is unary.
pub(crate) fn precedes_sign(previous: Option<Symbol>) -> bool
    ensures { result ≡ precedes_sign previous }
{
    match previous {
        Some(symbol) => !ends_operand(symbol),
        None => true,
    }
}

// Whether two tokens of a line have no space between them, the first of which is a unary sign or not.
fn are_joined(is_unary: bool, previous: Symbol, symbol: Symbol) -> bool
    ensures { result ≡ are_joined is_unary previous symbol }
{
    joins_previous(symbol)
        || joins_next(previous)
        || (is_dot(previous) && is_selector(symbol))
        || (is_prefix(previous) && is_dot(symbol))
        || (is_unary && is_sign(previous) && begins_operand(symbol))
}

// Whether more than one space before it is kept.
fn keeps_columns(symbol: Symbol) -> bool
    ensures { result ≡ keeps_columns symbol }
{
    matches!(
        symbol,
        Symbol::Delimiter(Delimiter::Colon | Delimiter::Assignment | Delimiter::Arrow)
    )
}

/// How many spaces are between a token and the next one on its line, where the text had so many.
pub(crate) fn spaces_between(
    is_unary: bool,
    previous: Option<Symbol>,
    symbol: Symbol,
    spaces: usize,
) -> usize
    ensures { result ≡ spaces_between is_unary previous symbol spaces }
{
    match previous {
        Some(previous) => {
            if are_joined(is_unary, previous, symbol) {
                0
            } else if keeps_columns(symbol) {
                spaces.max(1)
            } else {
                1
            }
        }
        None => 1,
    }
}
