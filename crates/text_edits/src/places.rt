//! From places of an edited text to those of the text before.
ghost use Rattle.std.specs.Prelude.{◌≡◌, ◌-◌, ◌^◌, min};
ghost use Rattle.text_edits.specs.Places.{origin};

use crate::Edit;
use std::marker::Model;

/// Where the bytes of an edited text come from. Contracts see the edits.
#[derive(Drop)]
pub struct Places {
    edits: Vec<Edit>,
}

impl Model for Places {
    ghost use Rattle.std.specs.Prelude.{List};
    ghost use Rattle.text_edits.specs.Edits.{TextEdit};

    ghost Value = { List TextEdit };

    ghost view = { λ p. p.edits.items };
}

impl Places {
    pub(crate) fn new(edits: Vec<Edit>) -> Places
        ensures { result ≡ edits.items }
    {
        Places { edits }
    }

    /// The place in the text before of what is at this place in the edited one: that of the same byte, or of the first byte of the part that was replaced.
    pub fn origin(&self, place: u32) -> u32
        ensures { result ≡ min (origin self.now place) (2 ^ 32 - 1) }
    {
        let edits = self.edits.as_slice();
        let mut at = 0;
        let mut left = place;
        for edit in edits {
            let start = edit.span().start;
            let kept = start.saturating_sub(at) as usize;
            let length = edit.replacement().len();
            if (left as usize) < kept {
                return at + left;
            }
            if (left as usize) < kept.saturating_add(length) {
                return start;
            }
            left -= kept.saturating_add(length) as u32;
            at = edit.span().end_;
        }
        at.saturating_add(left)
    }
}
