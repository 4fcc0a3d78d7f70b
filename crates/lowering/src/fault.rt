//! What comes of a text: its lowered text with notes, or its fault.
ghost use Rattle.std.specs.Prelude.{◌≡◌};
ghost use Rattle.lowering.specs.Lowering.{memory_fault};

use lowering_text::NoteKind;
use std::alloc::{AllocError, AllocFailed};

/// Why a text isn't lowered.
#[derive(Clone, Copy, PartialEq, Eq)]
pub enum FaultKind {
    /// No tokens spell it.
    Spelling(ada2012_lexer::FaultKind),
    /// Its tokens have no tree, or one with a construct that isn't taken.
    Syntax(ada2012_parser::FaultKind),
    /// A named number is real.
    RealNumber,
    /// A named number is outside `-2**63 .. 2**63 - 1`, or its value raises an exception.
    NumberOutOfRange,
    /// After `ROUNDS` rounds there was still something to be changed.
    Unfinished,
    /// Memory was refused. The place is 0.
    Memory,
}

/// Why a text isn't lowered, and the byte of the text that was given.
#[derive(Clone, Copy, PartialEq, Eq)]
pub struct Fault {
    pub kind: FaultKind,
    pub place: u32,
}

impl Fault {
    pub(crate) fn memory() -> Fault
        ensures { result ≡ memory_fault }
    {
        Fault {
            kind: FaultKind::Memory,
            place: 0,
        }
    }
}

impl From<AllocError> for Fault {
    ghost from_gives = { λ _ fault. fault ≡ memory_fault };

    fn from(_refused: AllocError) -> Fault {
        Fault::memory()
    }
}

impl<T: Drop> From<AllocFailed<T>> for Fault {
    ghost from_gives = { λ _ fault. fault ≡ memory_fault };

    fn from(_refused: AllocFailed<T>) -> Fault {
        Fault::memory()
    }
}

/// A note, and the byte of the text that was given.
#[derive(Drop, PartialEq, Eq)]
pub struct Note {
    pub kind: NoteKind,
    pub place: u32,
}

/// A lowered text, and what is to be said of it, in the order in which it was found.
#[derive(Drop)]
pub struct Lowered {
    pub text: Vec<u8>,
    pub notes: Vec<Note>,
}
