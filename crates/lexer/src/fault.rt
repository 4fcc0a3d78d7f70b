//! Why a source text is refused.
ghost use Rattle.std.specs.Prelude.{◌≡◌};
ghost use Rattle.lexer.specs.Fault.{memory_fault};

use base::faults::MEMORY_REFUSED;
use std::alloc::{AllocError, AllocFailed};
use thiserror::Error;

/// The rule that a source text breaks, by its number in docs/LANGUAGE.md, and the place where it does: a byte offset from the text's start.
/// Number 60 is no broken rule: memory was refused, and the place is 0.
#[derive(Clone, Copy, Debug, PartialEq, Eq, Error)]
#[error("fault {number} at byte {place}")]
pub struct Fault {
    pub number: u8,
    pub place: u32,
}

impl Fault {
    /// The answer where memory was refused.
    pub const fn memory() -> Fault
        ensures { result ≡ memory_fault }
    {
        Fault {
            number: MEMORY_REFUSED,
            place: 0,
        }
    }
}

impl From<AllocError> for Fault {
    ghost from_gives = { λ _ fault. fault ≡ memory_fault };

    fn from(_refused: AllocError) -> Fault {
        Fault::memory()
    }
}

impl<T: Drop> From<AllocFailed<T>> for Fault {
    ghost from_gives = { λ _ fault. fault ≡ memory_fault };

    fn from(_refused: AllocFailed<T>) -> Fault {
        Fault::memory()
    }
}
