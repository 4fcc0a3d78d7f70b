//! The values of all channels after each line of a schedule.
ghost use Rattle.std.specs.Prelude.{◌≡◌, IfOk, map};
ghost use Rattle.clock.specs.ChannelValues as rows_of;

use base::ScheduleLine;
use base::limits::CHANNELS;
use std::alloc::{AllocError, Global};

/// How many numbers of channels there are, 0 among them, which none has.
const CHANNEL_NUMBERS: usize = CHANNELS as usize + 1;

/// The values of all channels, by their numbers.
pub(crate) type Values = [i64; CHANNEL_NUMBERS];

// The values after a line, by those before it.
fn with_line(values: Values, line: &ScheduleLine) -> Values
    ensures { result ≡ rows_of.with_line values line.now }
{
    let mut next = values;
    let number = usize::from(line.channel);
    if number < CHANNEL_NUMBERS {
        next[number] = line.value;
    }
    next
}

/// The values after each of these lines.
///
/// # Errors
/// Where memory was refused.
pub(crate) fn values_after(alloc: Global, lines: &[ScheduleLine]) -> Result<Vec<Values>, AllocError>
    ensures { IfOk result (λ rows. rows.items ≡ rows_of.values_from rows_of.no_values lines.now) }
{
    let mut rows = Vec::with_capacity(alloc, lines.len())?;
    let mut values = [0; CHANNEL_NUMBERS];
    for line in lines {
        let next = with_line(values, line);
        rows.push(next)?;
        values = next;
    }
    Ok(rows)
}

/// The value of a channel after so many lines, of which each has its row of values; 0 before the first line.
pub(crate) fn value_after(rows: &[Values], passed: usize, channel: u8) -> i64
    ensures { result ≡ rows_of.value_after rows.now passed channel }
{
    if passed == 0 {
        return 0;
    }
    let Some(values) = rows.get(passed - 1) else {
        return 0;
    };
    values.get(usize::from(channel)).copied().unwrap_or(0)
}
