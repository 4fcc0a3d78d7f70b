//! What the axis of a dump counts.
ghost use Rattle.std.specs.Prelude.{◌≡◌};
ghost use Rattle.waveforms.specs.Waves as waves;

/// What the axis of a dump counts.
#[derive(Clone, Copy)]
pub(crate) enum Axis {
    /// The steps of the run.
    Steps,
    /// Microseconds of virtual time.
    Time,
}

impl Axis {
    /// The comment that says what a tick is.
    pub(crate) fn comment(self) -> &'static [u8]
        ensures { result.now ≡ waves.axis_comment self }
    {
        match self {
            Axis::Steps => {
                b"$comment one tick is one step of the run; time is virtual time in microseconds $end\n"
            }
            Axis::Time => {
                b"$comment one tick is one microsecond of virtual time; values are those at the end of an instant $end\n"
            }
        }
    }

    /// How long viewers take a tick to be.
    pub(crate) fn timescale(self) -> &'static [u8]
        ensures { result.now ≡ waves.timescale self }
    {
        match self {
            Axis::Steps => b"$timescale 1 ns $end\n",
            Axis::Time => b"$timescale 1 us $end\n",
        }
    }
}
