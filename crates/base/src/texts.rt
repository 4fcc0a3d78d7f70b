//! Names and labels.
ghost use Rattle.std.specs.Prelude.{◌≡◌, ◌≤◌, ◌<◌, ◌↔◌, length, IfSome, IsSome};
ghost use Rattle.base.specs.declared.limits.TheConstants.{NAME_LIMIT};

use crate::limits::NAME_LIMIT;
use arrayvec::ArrayVec;
use std::alloc::AllocError;
use std::marker::Model;

/// A name or a label: at most 40 bytes. Contracts see its bytes. A clone is made without memory and never fails.
#[derive(Debug, Drop, PartialEq, Eq, PartialOrd, Ord, Hash)]
pub struct Text {
    bytes: ArrayVec<u8, NAME_LIMIT>,
}

impl Model for Text {
    ghost use Rattle.std.specs.Prelude.{ℕ, List};

    ghost Value = { List ℕ };

    ghost view = { λ t. t.bytes.items };

    ghost inverse = { λ bytes. record { bytes = record { items = bytes } } };
}

impl Text {
    /// The text of these bytes.
    pub fn of(bytes: ArrayVec<u8, NAME_LIMIT>) -> Text
        ensures { result ≡ bytes.items }
    {
        Text { bytes }
    }

    /// The text of these bytes, or None where they are more than 40.
    pub fn new(bytes: &[u8]) -> Option<Text>
        ensures fits { IsSome result ↔ (length bytes.now ≤ NAME_LIMIT) }
        ensures same { IfSome result (λ text. text ≡ bytes.now) }
    {
        let mut kept = ArrayVec::new();
        kept.try_extend_from_slice(bytes).ok()?;
        Some(Text::of(kept))
    }

    /// The bytes.
    pub fn as_bytes(&self) -> &[u8]
        ensures same { result.now ≡ self.now }
        ensures short { length result.now ≤ NAME_LIMIT }
    {
        self.bytes.as_slice()
    }
}

impl Clone for Text {
    ghost is_clone = { λ old new. new ≡ old };

    ghost is_infallible = { λ _. Unit {0} };

    fn clone(&self) -> Result<Self, AllocError> {
        Ok(Text {
            bytes: self.bytes.clone()?,
        })
    }
}
