//! What is wrong with a schedule.
ghost use Rattle.std.specs.Prelude.{◌≡◌, option_map};
ghost use Rattle.diagnostics.specs.explanations.Explained.{of_schedules};

pub(crate) fn explanation(number: u64) -> Option<&'static str>
    ensures { option_map (λ text. text.now) result ≡ of_schedules number }
{
    match number {
        50 => Some(WRONG_SCHEDULE_LINE),
        51 => Some(TIME_GOES_BACK),
        52 => Some(UNKNOWN_CHANNEL),
        53 => Some(TOO_MANY_LINES),
        _ => None,
    }
}

const WRONG_SCHEDULE_LINE: &str = "\
50 A line of another form

Each line is a time, one space, a channel, one space, a value and a line feed, in numbers without \
leading zeros.

    0 1 5
    10  1 6

schedule fault 50 at line 2

One space alone is between the numbers. The last line ends with a line feed too. A line of a file \
from Windows ends with a carriage return before its line feed, and is refused for it: leave that out \
(`sed -i 's/\\r$//' FILE`).
";

const TIME_GOES_BACK: &str = "\
51 The time goes back

Lines are in the order of their times.

    10 1 5
    9 1 6

schedule fault 51 at line 2
";

const UNKNOWN_CHANNEL: &str = "\
52 No such channel

Channels are 1 to 8.

    0 9 5

schedule fault 52 at line 1
";

const TOO_MANY_LINES: &str = "\
53 Too many lines

A schedule has at most 4,096 lines; the 4,097th is named.

    $ yes '0 1 5' | head -n 4097

schedule fault 53 at line 4097
";
