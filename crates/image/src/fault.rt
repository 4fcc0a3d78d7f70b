//! Why an image is refused.
ghost use Rattle.std.specs.Prelude.{◌≡◌};
ghost use Rattle.image.specs.Faults.{memory_fault};

use base::faults::MEMORY_REFUSED;
use thiserror::Error;

/// The rule that an image breaks, by its number in docs/FORMATS.md, and the byte where it does, counted from 0.
/// Number 60 is no broken rule: memory was refused, and the byte is 0.
#[derive(Clone, Copy, Debug, PartialEq, Eq, Error)]
#[error("image fault {number} at byte {byte}")]
pub struct ImageFault {
    /// The number of the rule (`base::faults`).
    pub number: u8,
    /// The byte where it is broken.
    pub byte: u32,
}

impl ImageFault {
    /// The answer where memory was refused.
    pub const fn memory() -> ImageFault
        ensures { result ≡ memory_fault }
    {
        ImageFault {
            number: MEMORY_REFUSED,
            byte: 0,
        }
    }

    // The answer where a rule is broken in an image without bytes.
    pub(crate) const fn broken(number: u8) -> ImageFault
        ensures { result ≡ record { number = number; byte = 0 } }
    {
        ImageFault { number, byte: 0 }
    }
}
