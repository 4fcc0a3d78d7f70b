//! The words of a body's frame, as statements take and give them back.
ghost use Rattle.std.specs.Prelude.{◌≡◌, ◌+◌, ◌≤◌, Some, IfErr, IfOk, OnOk, max};
ghost use Rattle.expr_code.specs.Refusing.{IsRefused};
ghost use Rattle.part_code.specs.Emitting.{TakesWords};

use base::limits::FRAME_WORDS;
use expr_code::{ImageLimit, Refusal};

/// The place after so many words of a frame, which has at most 512 (docs/FORMATS.md).
pub fn behind(first: u16, words: u16) -> Result<u16, Refusal>
    ensures end { IfOk result (λ end. end ≡ first + words) }
    ensures within { IfOk result (λ end. end ≤ FRAME_WORDS) }
    ensures refused { IfErr result (λ why. IsRefused 0 (first + words) why) }
{
    match first.checked_add(words) {
        Some(end) if usize::from(end) <= FRAME_WORDS => Ok(end),
        _ => Err(Refusal::Limit(ImageLimit::Frame)),
    }
}

/// The words of a body's frame for its names: how many of them are taken at a place of its text, and the most that are taken at any place.
#[derive(Clone, Copy, PartialEq, Eq, Debug)]
pub struct FrameWords {
    pub taken: u16,
    pub most: u16,
}

impl FrameWords {
    /// None taken.
    pub fn new() -> FrameWords
        ensures taken { result.taken ≡ 0 }
        ensures most { result.most ≡ 0 }
    {
        FrameWords { taken: 0, most: 0 }
    }

    /// Takes so many words after those that are taken, and returns the first of them. A frame has at most 512 (docs/FORMATS.md).
    pub fn take(&mut self, words: u16) -> Result<u16, Refusal>
        ensures first { IfOk result (λ first. first ≡ self.old.taken) }
        ensures takes { OnOk result (TakesWords self.old words self.new) }
        ensures most { OnOk result (self.new.most ≡ max self.old.most (self.old.taken + words)) }
        ensures within { OnOk result (self.new.taken ≤ FRAME_WORDS) }
        ensures refused { IfErr result (λ why. IsRefused 0 (self.old.taken + words) why) }
    {
        let first = self.taken;
        self.taken = behind(first, words)?;
        self.most = self.most.max(self.taken);
        Ok(first)
    }

    /// Gives back the words after the first `taken` ones.
    pub fn release(&mut self, taken: u16)
        ensures { self.new ≡ record self.old { taken = taken } }
    {
        self.taken = taken;
    }
}
