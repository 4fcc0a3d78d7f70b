//! How many names were visible, and how many words of the frame were taken, before a part of a body.
ghost use Rattle.std.specs.Prelude.{◌≡◌, length, take};

use crate::frame_words::FrameWords;
use expr_code::Visible;

/// How many names are visible, how many of them have entries, and how many words of the frame are taken.
#[derive(Clone, Copy, PartialEq, Eq, Debug)]
pub struct Extent {
    pub names: usize,
    pub slots: usize,
    pub subprograms: usize,
    pub taken: u16,
}

impl Extent {
    /// The extent of what is visible now, and of the words that are taken.
    pub fn of(visible: &Visible, words: FrameWords) -> Extent
        ensures names { result.names ≡ length visible.now.scope }
        ensures slots { result.slots ≡ length visible.now.slots }
        ensures subprograms { result.subprograms ≡ length visible.now.subprograms }
        ensures taken { result.taken ≡ words.taken }
    {
        Extent {
            names: visible.scope.len(),
            slots: visible.slots.len(),
            subprograms: visible.subprograms.len(),
            taken: words.taken,
        }
    }

    /// Takes what became visible since then out of sight, and gives back the words that were taken.
    pub fn restore(self, visible: &mut Visible, words: &mut FrameWords)
        ensures visible { visible.new ≡ record {
          scope = take self.names visible.old.scope;
          slots = take self.slots visible.old.slots;
          subprograms =
              take self.subprograms visible.old.subprograms;
          operations = visible.old.operations;
        } }
        ensures words { words.new ≡ record words.old { taken = self.taken } }
    {
        visible.scope.truncate(self.names);
        visible.slots.truncate(self.slots);
        visible.subprograms.truncate(self.subprograms);
        words.release(self.taken);
    }
}
