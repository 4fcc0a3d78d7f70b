//! What is known of a source by the instructions of its image: where they come from, and whose operations they call.
ghost use Rattle.std.specs.Prelude.{◌≡◌};
ghost use Rattle.adarun.specs.Origins.{known_in, position_in};

use crate::operations::called_at;
use compiler::Places;
use diagnostics::{column_after, line_after};
use image::{Image, Text};
use tracing::{Origin, Origins};

/// The line and the column of a place of a text, both from 1 and in bytes.
pub(crate) fn position(text: &[u8], place: u32) -> Origin
    ensures { result ≡ position_in text.now place }
{
    let front = &text[..(place as usize).min(text.len())];
    Origin {
        line: line_after(front),
        column: column_after(front),
    }
}

/// The statements and declarations of a text and the names of its subprograms, by the instructions of its image.
#[derive(Drop)]
pub(crate) struct Statements<'a> {
    pub(crate) text: &'a [u8],
    pub(crate) image: &'a Image,
    pub(crate) places: &'a Places,
    pub(crate) subprograms: &'a [Text],
}

impl<'a> Origins for Statements<'a> {
    ghost known = { λ s. known_in s.text.now s.image.now s.places.now s.subprograms.now };

    fn origin_of(&self, address: u16) -> Option<Origin> {
        match self.places.place_of(usize::from(address)) {
            Some(place) => Some(position(self.text, place)),
            None => None,
        }
    }

    fn operation_of(&self, address: u16) -> Option<&Text> {
        let number = called_at(self.image, address)?;
        self.subprograms.get(usize::from(number))
    }
}
