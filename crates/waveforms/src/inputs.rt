//! The inputs of a run: which channels have lines in its schedule, and their values at a time.
ghost use Rattle.std.specs.Prelude.{◌≡◌, ◌+◌, ◌∷◌, ◌<◌, ◌≤◌, ◌++◌, [], if◌then◌else◌, length, map, vec_capacity, vec_len};
ghost use Rattle.arrayvec.specs.ArrayVec.{array_vec_len};
ghost use Rattle.base.specs.declared.limits.TheConstants.{CHANNELS};
ghost use Rattle.waveforms.specs.Signals as signals;

use arrayvec::ArrayVec;
use base::ScheduleLine;
use base::limits::CHANNELS;
use clock::Schedule;
use std::marker::Model;

/// The most inputs that there are: one for each channel.
pub(crate) const INPUTS: usize = CHANNELS as usize;

/// The channels that have lines in a schedule. Contracts see the schedule.
#[derive(Drop)]
pub(crate) struct Inputs<'s> {
    schedule: &'s Schedule,
    channels: ArrayVec<u8, INPUTS>,
}

impl<'s> Model for Inputs<'s> {
    ghost use Rattle.std.specs.Prelude.{◌≡◌, List};
    ghost use Rattle.base.specs.declared.schedule.ScheduleLine.{ScheduleLine as Line};
    ghost use Rattle.waveforms.specs.Signals as signals;

    ghost Value = { List Line };

    ghost view = { λ i. i.schedule.now };

    ghost invariant = { λ i. i.channels.items ≡ signals.channels i.schedule.now };
}

// Whether a channel has a line.
fn has_line(lines: &[ScheduleLine], channel: u8) -> bool
    ensures { result ≡ signals.has_line lines.now channel }
{
    lines.iter().any(|line| line.channel == channel)
}

// Adds a channel, for which there is room, if it has a line.
fn add_channel(channels: &mut ArrayVec<u8, INPUTS>, lines: &[ScheduleLine], channel: u8)
    requires { array_vec_len channels.old < CHANNELS }
    ensures items { channels.new.items ≡ channels.old.items ++ (if signals.has_line lines.now channel then channel ∷ [] else []) }
    ensures len { array_vec_len channels.new ≤ array_vec_len channels.old + 1 }
{
    if has_line(lines, channel) {
        channels.push(channel);
    }
}

// The channels that have lines.
fn channels_of(schedule: &Schedule) -> ArrayVec<u8, INPUTS>
    ensures { result.items ≡ signals.channels schedule.now }
{
    let mut channels = ArrayVec::new();
    for number in 0..CHANNELS {
        add_channel(&mut channels, schedule.lines(), number + 1);
    }
    channels
}

// The value of a channel at this time (microseconds since the start), in 64 bits.
fn input_value(schedule: &Schedule, channel: u8, time: i64) -> u64
    ensures { result ≡ signals.input_value schedule.now time channel }
{
    schedule.value(channel, time).cast_unsigned()
}

// Adds the values of channels at this time, for which there is room.
fn add_values(values: &mut Vec<u64>, schedule: &Schedule, channels: &[u8], time: i64)
    requires { vec_len values.old + length channels.now ≤ vec_capacity values.old }
    ensures items { values.new.items ≡ values.old.items ++ map (signals.input_value schedule.now time) channels.now }
    ensures len { vec_len values.new ≡ vec_len values.old + length channels.now }
    ensures capacity { vec_capacity values.new ≡ vec_capacity values.old }
{
    for channel in channels {
        values.push_reserved(input_value(schedule, *channel, time));
    }
}

impl<'s> Inputs<'s> {
    /// The inputs of a run with this schedule.
    pub(crate) fn new(schedule: &'s Schedule) -> Inputs<'s>
        ensures { result ≡ schedule.now }
    {
        Inputs {
            schedule,
            channels: channels_of(schedule),
        }
    }

    /// The channels that have lines, in their order.
    pub(crate) fn channels(&self) -> &[u8]
        ensures is { result.now ≡ signals.channels self.now }
        ensures few { length result.now ≤ CHANNELS }
    {
        self.channels.as_slice()
    }

    /// Adds their values at this time (microseconds since the start), for which there is room.
    pub(crate) fn add_values(&self, values: &mut Vec<u64>, time: i64)
        requires { vec_len values.old + CHANNELS ≤ vec_capacity values.old }
        ensures items { values.new.items ≡ values.old.items ++ signals.input_values self.now time }
        ensures len { vec_len values.new ≤ vec_len values.old + CHANNELS }
        ensures capacity { vec_capacity values.new ≡ vec_capacity values.old }
    {
        add_values(values, self.schedule, self.channels(), time);
    }
}
