//! How many steps are taken at one time.
ghost use Rattle.std.specs.Prelude.{◌≡◌};
ghost use Rattle.measuring.specs.Measures.{no_steps, with_step};

/// How many steps a run takes at one time: so far at the present time, and at the first time at which it took the most. No number is greater than
/// 2**64 - 1, and a greater one is written as that.
#[derive(Clone, Copy, PartialEq, Eq, Debug)]
pub struct Instants {
    pub present: u64,
    pub most: u64,
    pub time: i64,
}

impl Instants {
    /// No step has been taken.
    pub(crate) fn new() -> Self
        ensures { result ≡ no_steps }
    {
        Instants {
            present: 0,
            most: 0,
            time: 0,
        }
    }

    /// With a step at this time, after which the clock moves or not.
    pub(crate) fn take_step(&mut self, now: i64, moves: bool)
        ensures { self.new ≡ with_step now moves self.old }
    {
        let present = self.present.saturating_add(1);
        if self.most < present {
            self.time = now;
        }
        self.most = self.most.max(present);
        self.present = if moves { 0 } else { present };
    }
}
