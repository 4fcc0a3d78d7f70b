//! What is measured of one protected object.
ghost use Rattle.std.specs.Prelude.{◌≡◌, ◌∷◌, List, Bool};
ghost use Rattle.measuring.specs.Measures.{object_measures};

/// What is measured of a protected object. No number is greater than 2**64 - 1, and a greater one is written as that.
#[derive(Clone, Copy, PartialEq, Eq, Debug, Default)]
pub struct ObjectMeasures {
    /// How often it has been called.
    pub calls: u64,
    /// How many of these calls waited in the queue of its entry.
    pub queued: u64,
}

impl ObjectMeasures {
    /// With one more call.
    pub(crate) fn note(&mut self, is_queued: bool)
        ensures { (calls : List Bool) → self.old ≡ object_measures calls → self.new ≡ object_measures (is_queued ∷ calls) }
    {
        self.calls = self.calls.saturating_add(1);
        if is_queued {
            self.queued = self.queued.saturating_add(1);
        }
    }
}
