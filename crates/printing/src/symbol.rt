//! Tokens as the layout distinguishes them.
ghost use Rattle.std.specs.Prelude.{◌≡◌};
ghost use Rattle.printing.specs.Constructs.{symbol_of};

use lexer::{Delimiter, TokenKind, Word};

/// What a token is, without its name, value or label.
#[derive(Clone, Copy)]
pub enum Symbol {
    Identifier,
    Word(Word),
    Number,
    Label,
    Delimiter(Delimiter),
}

pub(crate) fn symbol_of(kind: &TokenKind) -> Symbol
    ensures { result ≡ symbol_of kind.now }
{
    match kind {
        TokenKind::Identifier(_) => Symbol::Identifier,
        TokenKind::Word(word) => Symbol::Word(*word),
        TokenKind::Number(_) => Symbol::Number,
        TokenKind::Label(_) => Symbol::Label,
        TokenKind::Delimiter(delimiter) => Symbol::Delimiter(*delimiter),
    }
}
