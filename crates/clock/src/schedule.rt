//! Schedules of input values.
ghost use Rattle.std.specs.Prelude.{◌≡◌, ◌+◌, ◌≤◌, Some, IfErr, IfOk, IsTrue};
ghost use Rattle.base.specs.Schedule.{input, is_schedule};
ghost use Rattle.clock.specs.Capped.{IsNext};
ghost use Rattle.clock.specs.Schedules.{IsScheduleText, RefusesSchedule, heard_line, next_fault};

use crate::channel_values::{Values, value_after, values_after};
use crate::faults::{TIME_GOES_BACK, TOO_MANY_LINES, UNKNOWN_CHANNEL};
use crate::reading::front_line;
use base::ScheduleLine;
use base::faults::{MEMORY_REFUSED, WRONG_SCHEDULE_LINE};
use base::limits::SCHEDULE_LINES;
use std::alloc::{AllocError, AllocFailed, Global};
use std::marker::Model;
use thiserror::Error;

/// The rule that a schedule breaks, by its number in docs/FORMATS.md, and the line where it does, counted from 1; or 60 at line 0
/// where memory was refused.
#[derive(Clone, Copy, PartialEq, Eq, Debug, Error)]
#[error("schedule fault {number} at line {line}")]
pub struct ScheduleFault {
    pub number: u8,
    pub line: u32,
}

impl From<AllocFailed<ScheduleLine>> for ScheduleFault {
    ghost use Rattle.clock.specs.Schedules.{memory_fault};

    ghost from_gives = { λ _ fault. fault ≡ memory_fault };

    fn from(_refused: AllocFailed<ScheduleLine>) -> ScheduleFault {
        ScheduleFault {
            number: MEMORY_REFUSED,
            line: 0,
        }
    }
}

impl From<AllocError> for ScheduleFault {
    ghost use Rattle.clock.specs.Schedules.{memory_fault};

    ghost from_gives = { λ _ fault. fault ≡ memory_fault };

    fn from(_refused: AllocError) -> ScheduleFault {
        ScheduleFault {
            number: MEMORY_REFUSED,
            line: 0,
        }
    }
}

/// A schedule of input values: at most 4,096 lines in the order of their times. Contracts see the lines.
#[derive(Drop)]
pub struct Schedule {
    lines: Vec<ScheduleLine>,
    // those of the channels after each line
    values: Vec<Values>,
}

impl Model for Schedule {
    ghost use Rattle.std.specs.Prelude.{◌≡◌, List, IsTrue};
    ghost use Rattle.base.specs.Schedule.{is_schedule};
    ghost use Rattle.base.specs.declared.schedule.ScheduleLine.{ScheduleLine as Line};
    ghost use Rattle.clock.specs.ChannelValues.{no_values, values_from};

    ghost Value = { List Line };

    ghost view = { λ s. s.lines.items };

    ghost invariant = { λ s. IsTrue (is_schedule s.lines.items) × (s.values.items ≡ values_from no_values s.lines.items) };
}

impl Schedule {
    /// Reads a schedule (docs/FORMATS.md, "Schedule").
    ///
    /// # Errors
    /// The first faulty line, with the first of these that it breaks: 53 where 4,096 lines are before it, 50 where it isn't a time, a
    /// channel and a value with single spaces and a line feed, or the time or the value has more than 64 bits, 52 where the channel is
    /// none of 1 to 8, 51 where the time is before that of the line before. 60, at line 0, where memory was refused.
    pub fn read(alloc: Global, text: &[u8]) -> Result<Schedule, ScheduleFault>
        ensures read { IfOk result (λ schedule. IsScheduleText text.now schedule) }
        ensures refused { IfErr result (RefusesSchedule text.now) }
    {
        let mut lines = Vec::new(alloc);
        let mut last = 0;
        let mut rest = text;
        while !rest.is_empty() {
            let (line, behind) = next_line(lines.len(), last, rest)?;
            lines.push(line)?;
            last = line.time;
            rest = behind;
        }
        Ok(Schedule::of_lines(alloc, lines)?)
    }

    /// The schedule of these lines.
    ///
    /// # Errors
    /// Where memory was refused.
    pub fn of_lines(alloc: Global, lines: Vec<ScheduleLine>) -> Result<Schedule, AllocError>
        requires { IsTrue (is_schedule lines.items) }
        ensures { IfOk result (λ schedule. schedule ≡ lines.items) }
    {
        let values = values_after(alloc, &lines)?;
        Ok(Schedule { lines, values })
    }

    /// The lines, in the order of their times.
    pub fn lines(&self) -> &[ScheduleLine]
        ensures { result.now ≡ self.now }
    {
        &self.lines
    }

    /// The time (microseconds since the start) and the channel of line `number`, counted from 0, or None after the last one.
    pub fn line(&self, number: usize) -> Option<(i64, u8)>
        ensures { result ≡ heard_line self.now number }
    {
        let line = self.lines.get(number)?;
        Some((line.time, line.channel))
    }

    /// The value of `channel` at `now` (microseconds since the start): that of its last line with a time at most `now`, or 0 where
    /// there is none.
    pub fn value(&self, channel: u8, now: i64) -> i64
        ensures { result ≡ input self.now channel now }
    {
        let passed = self.lines.partition_point(|line| line.time <= now);
        value_after(&self.values, passed, channel)
    }
}

// The line at the front of the rest, behind so many lines up to this time, and what stands behind it.
fn next_line(count: usize, last: i64, rest: &[u8]) -> Result<(ScheduleLine, &[u8]), ScheduleFault>
    requires { count ≤ SCHEDULE_LINES }
    ensures next { IfOk result (λ read. IsNext count last rest.now read.0 read.1.now) }
    ensures fault { IfErr result (λ fault. (next_fault count last rest.now ≡ Some fault.number) × (fault.line ≡ count + 1)) }
{
    let line = count as u32 + 1;
    let fault = |number| ScheduleFault { number, line };
    if count == SCHEDULE_LINES {
        return Err(fault(TOO_MANY_LINES));
    }
    let Some((read, behind)) = front_line(rest) else {
        return Err(fault(WRONG_SCHEDULE_LINE));
    };
    let Some(channel) = read.channel else {
        return Err(fault(UNKNOWN_CHANNEL));
    };
    if read.time < last {
        return Err(fault(TIME_GOES_BACK));
    }
    let line = ScheduleLine {
        time: read.time,
        channel,
        value: read.value,
    };
    Ok((line, behind))
}
