//! Why a text isn't laid out.
ghost use Rattle.std.specs.Prelude.{◌≡◌};

use std::alloc::AllocError;
use thiserror::Error;

/// Why a text isn't laid out.
#[derive(Clone, Copy, Debug, PartialEq, Eq, Error)]
pub enum Refusal {
    /// Its layout would have more bytes than a text may have.
    #[error("the formatted text would have more than 65536 bytes")]
    TooLong,
    /// Memory was refused.
    #[error("no memory")]
    Memory,
}

impl From<AllocError> for Refusal {
    ghost use Rattle.printing.specs.declared.refusal.Refusal.TheVariants.{Memory};

    ghost from_gives = { λ _ refusal. refusal ≡ Memory };

    fn from(_refused: AllocError) -> Refusal {
        Refusal::Memory
    }
}
