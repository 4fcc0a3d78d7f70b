//! Why reading stops.
ghost use Rattle.std.specs.Prelude.{◌≡◌};
ghost use Rattle.parser.specs.declared.refusal.Refusal.TheVariants.{Memory};

use std::alloc::{AllocError, AllocFailed};

/// A broken rule: too many levels are open, or else a token that no derivation allows. The place is given by the number of tokens
/// that are left from it on: 0 at the end.
#[derive(Clone, Copy, Debug)]
pub struct Broken {
    pub deep: bool,
    pub left: usize,
}

/// Why reading stops.
#[derive(Debug, Drop)]
pub enum Refusal {
    /// Memory was refused.
    Memory,
    /// A rule is broken.
    Broken(Broken),
}

impl From<AllocError> for Refusal {
    ghost from_gives = { λ _ refusal. refusal ≡ Memory };

    fn from(_refused: AllocError) -> Refusal {
        Refusal::Memory
    }
}

impl<T: Drop> From<AllocFailed<T>> for Refusal {
    ghost from_gives = { λ _ refusal. refusal ≡ Memory };

    fn from(_refused: AllocFailed<T>) -> Refusal {
        Refusal::Memory
    }
}
