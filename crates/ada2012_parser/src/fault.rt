//! Why a text has no tree.
ghost use Rattle.std.specs.Prelude.{◌≡◌};
ghost use Rattle.ada2012_parser.specs.declared.fault.Stop.TheVariants.{Memory};

use crate::LeftOut;
use ada2012_lexer::Delimiter;
use lexer::Word;
use std::alloc::{AllocError, AllocFailed};

/// What would have been right where a token can't be.
#[derive(Clone, Copy, PartialEq, Eq)]
pub enum Expected {
    /// This reserved word.
    Word(Word),
    /// This delimiter.
    Delimiter(Delimiter),
    /// An identifier.
    Identifier,
    /// The name of an attribute.
    Attribute,
    /// An expression.
    Expression,
    /// The logical operator between the operands before: with another one parentheses are needed.
    SameOperator,
    /// A statement.
    Statement,
    /// A declaration, or a word that ends a list of them.
    Declaration,
    /// The definition of a type.
    Type,
    /// A package, a procedure or a function, or a clause before one.
    Unit,
}

/// What is wrong with the tokens of a text.
#[derive(Clone, Copy, PartialEq, Eq)]
pub enum FaultKind {
    /// This construct, which begins with this token, isn't taken.
    LeftOut(LeftOut),
    /// The token can't be here, nor the end of the text: this can.
    Unexpected(Expected),
    /// This token opens more than 40 levels.
    TooManyLevels,
    /// Memory was refused. The place is 0.
    Memory,
}

/// What is wrong with a text, and the first byte of the token that is wrong; where that is the end, the end of the last token.
#[derive(Clone, Copy, PartialEq, Eq)]
pub struct Fault {
    pub kind: FaultKind,
    pub place: u32,
}

/// A fault at a token, by the number of tokens that are left from it on: 0 at the end.
#[derive(Clone, Copy)]
pub(crate) struct Found {
    pub(crate) kind: FaultKind,
    pub(crate) left: usize,
}

/// Why reading stops.
#[derive(Drop)]
pub(crate) enum Stop {
    /// Memory was refused.
    Memory,
    Found(Found),
}

impl From<AllocError> for Stop {
    ghost from_gives = { λ _ stop. stop ≡ Memory };

    fn from(_refused: AllocError) -> Stop {
        Stop::Memory
    }
}

impl<T: Drop> From<AllocFailed<T>> for Stop {
    ghost from_gives = { λ _ stop. stop ≡ Memory };

    fn from(_refused: AllocFailed<T>) -> Stop {
        Stop::Memory
    }
}
