//! What is wrong with a set of schedules.
ghost use Rattle.std.specs.Prelude.{◌≡◌, option_map};
ghost use Rattle.diagnostics.specs.explanations.Explained.{of_choices};

pub(crate) fn explanation(number: u64) -> Option<&'static str>
    ensures { option_map (λ text. text.now) result ≡ of_choices number }
{
    match number {
        80 => Some(WRONG_CHOICES_LINE),
        82 => Some(UNKNOWN_CHANNEL),
        83 => Some(TOO_MANY_SLOTS),
        84 => Some(TOO_MANY_ALTERNATIVES),
        85 => Some(SAME_ALTERNATIVE),
        86 => Some(SLOT_TOO_LATE),
        _ => None,
    }
}

const WRONG_CHOICES_LINE: &str = "\
80 A line of another form

Each line of a set of schedules is times, one space, a channel, one space, alternatives and a line \
feed, in numbers without leading zeros.

    0 1 20|50
    10..50 1 20|50

choices fault 80 at line 2

Times are one time or `FROM..TO/STEP`, where FROM is not after TO and STEP is not 0. Alternatives \
are values, `FIRST..LAST` where FIRST is not above LAST, and `-`, with a bar between each two. \
Write `10..50/10 1 20|50`.
";

const UNKNOWN_CHANNEL: &str = "\
82 No such channel of a set

Channels are 1 to 8.

    0 9 5|6

choices fault 82 at line 1
";

const TOO_MANY_SLOTS: &str = "\
83 Too many slots

A set of schedules has at most 4,096 slots, one for each time of each line, so that each of its \
schedules is one.

    0..4096/1 1 20|50

choices fault 83 at line 1

Take a longer step, or end the search earlier.
";

const TOO_MANY_ALTERNATIVES: &str = "\
84 Too many alternatives

A slot has at most 4,096 alternatives.

    0 1 0..4096

choices fault 84 at line 1

Choose among fewer values: those at the limits that the program compares with, and one on each \
side of them.
";

const SAME_ALTERNATIVE: &str = "\
85 An alternative that is there twice

No two alternatives of a slot are the same.

    0 1 3|0..5

choices fault 85 at line 1

Leave one of them out.
";

const SLOT_TOO_LATE: &str = "\
86 A slot after the end

No slot is later than UNTIL, the end of the search, which is 60000 here.

    70000 1 20|50

choices fault 86 at line 1

A value that comes after the end changes nothing: leave it out, or search further.
";
