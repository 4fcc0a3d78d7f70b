//! Why the text of a set of schedules is refused.
use base::faults::MEMORY_REFUSED;
use std::alloc::AllocError;
use thiserror::Error;

/// The line isn't one of a set of schedules.
pub const WRONG_CHOICES_LINE: u8 = 80;
/// The channel is not one of 1 to 8.
pub const UNKNOWN_CHANNEL: u8 = 82;
/// There are more slots, with this line's, than a schedule may have lines.
pub const TOO_MANY_SLOTS: u8 = 83;
/// A slot has more alternatives than it may have.
pub const TOO_MANY_ALTERNATIVES: u8 = 84;
/// Two alternatives of a slot are the same.
pub const SAME_ALTERNATIVE: u8 = 85;
/// A slot is later than the end of the search.
pub const SLOT_TOO_LATE: u8 = 86;

/// The rule that the text of a set of schedules breaks, by its number in docs/FORMATS.md, and the line where it does, counted from 1; or 60 at line 0 where
/// memory was refused.
#[derive(Clone, Copy, PartialEq, Eq, Debug, Error)]
#[error("choices fault {number} at line {line}")]
pub struct ChoicesFault {
    pub number: u8,
    pub line: u32,
}

impl From<AllocError> for ChoicesFault {
    ghost use Rattle.std.specs.Prelude.{◌≡◌};
    ghost use Rattle.choices.specs.Faults.{memory_fault};

    ghost from_gives = { λ _ fault. fault ≡ memory_fault };

    fn from(_refused: AllocError) -> ChoicesFault {
        ChoicesFault {
            number: MEMORY_REFUSED,
            line: 0,
        }
    }
}
