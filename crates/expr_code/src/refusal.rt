//! Why code isn't made.
use std::alloc::{AllocError, AllocFailed};

/// A limit of images (docs/FORMATS.md).
#[derive(Clone, Copy, PartialEq, Eq, Debug)]
pub enum ImageLimit {
    /// Instructions of all code.
    Instructions,
    /// Words of a frame and of its operand stack together.
    Frame,
    /// Words of an object or a part of it, which has one at least.
    Block,
    /// Words of variables and of components of protected objects.
    Words,
    /// Labels of lines.
    Labels,
    /// Exceptions that handlers and `raise` may name.
    Exceptions,
    /// Subprograms.
    Subprograms,
    /// Tasks, main among them.
    Tasks,
    /// Protected objects.
    Objects,
    /// Rows of handlers.
    Rows,
}

/// Why code isn't made.
#[derive(Clone, Copy, PartialEq, Eq, Debug)]
pub enum Refusal {
    /// It may pass this limit of images.
    Limit(ImageLimit),
    /// Memory was refused.
    Memory,
}

impl From<AllocError> for Refusal {
    ghost use Rattle.std.specs.Prelude.{◌≡◌};
    ghost use Rattle.expr_code.specs.declared.refusal.Refusal.TheVariants.{Memory};

    ghost from_gives = { λ _ why. why ≡ Memory };

    fn from(_refused: AllocError) -> Refusal {
        Refusal::Memory
    }
}

impl<T: Drop> From<AllocFailed<T>> for Refusal {
    ghost use Rattle.std.specs.Prelude.{◌≡◌};
    ghost use Rattle.expr_code.specs.declared.refusal.Refusal.TheVariants.{Memory};

    ghost from_gives = { λ _ why. why ≡ Memory };

    fn from(_refused: AllocFailed<T>) -> Refusal {
        Refusal::Memory
    }
}
