//! Why a text has no lexical elements.
ghost use Rattle.std.specs.Prelude.{◌≡◌};
ghost use Rattle.ada2012_lexer.specs.Faults.{memory_fault};

use std::alloc::{AllocError, AllocFailed};
use thiserror::Error;

/// What is wrong at a place of a text.
#[derive(Clone, Copy, Debug, PartialEq, Eq, Error)]
pub enum FaultKind {
    /// No lexical element begins with this character, or no string literal may hold it (RM 2.1, 2.2).
    #[error("a stray character")]
    StrayCharacter,
    /// An identifier has two underlines in a row, or ends in one (RM 2.3).
    #[error("an identifier with an underline that isn't between letters or digits")]
    IdentifierUnderline,
    /// An identifier has more than 40 characters.
    #[error("an identifier of more than 40 characters")]
    LongIdentifier,
    /// A numeric literal has an underline that isn't between two digits (RM 2.4.1).
    #[error("a number with an underline that isn't between digits")]
    NumberUnderline,
    /// A numeric literal has no digit where it needs one (RM 2.4).
    #[error("a number without a digit where it needs one")]
    MissingDigit,
    /// The base of a numeric literal isn't one of 2 to 16 (RM 2.4.2).
    #[error("a number whose base isn't one of 2 to 16")]
    WrongBase,
    /// A numeric literal has a digit or letter that is no digit of its base (RM 2.4.2).
    #[error("a number with a digit that its base doesn't have")]
    WrongDigit,
    /// A based literal isn't closed by a number sign (RM 2.4.2).
    #[error("a based number without its second number sign")]
    OpenBasedLiteral,
    /// An integer literal has a negative exponent (RM 2.4.1).
    #[error("an integer with a negative exponent")]
    NegativeExponent,
    /// A letter, a digit or an underline follows a numeric literal at once (RM 2.2).
    #[error("a number that a letter or digit follows at once")]
    JoinedNumber,
    /// After an apostrophe that begins a character literal there isn't one graphic character and then another apostrophe (RM 2.5).
    #[error("a character literal that isn't closed after its character")]
    OpenCharacter,
    /// A string literal isn't closed on its line (RM 2.6).
    #[error("a string that isn't closed on its line")]
    OpenString,
    /// The text is longer than `TEXT_LIMIT`.
    #[error("a text that is too long")]
    TextTooLong,
    /// Memory was refused. The place is 0.
    #[error("no memory")]
    Memory,
}

/// What is wrong with a text, and the place where it is: a byte offset from the text's start.
#[derive(Clone, Copy, Debug, PartialEq, Eq, Error)]
#[error("{kind} at byte {place}")]
pub struct Fault {
    pub kind: FaultKind,
    pub place: u32,
}

impl Fault {
    fn memory() -> Fault
        ensures { result ≡ memory_fault }
    {
        Fault {
            kind: FaultKind::Memory,
            place: 0,
        }
    }
}

impl From<AllocError> for Fault {
    ghost from_gives = { λ _ fault. fault ≡ memory_fault };

    fn from(_refused: AllocError) -> Fault {
        Fault::memory()
    }
}

impl<T: Drop> From<AllocFailed<T>> for Fault {
    ghost from_gives = { λ _ fault. fault ≡ memory_fault };

    fn from(_refused: AllocFailed<T>) -> Fault {
        Fault::memory()
    }
}
