//! Reading numbers, and lines of a schedule, off the front of a text.
ghost use Rattle.std.specs.Prelude.{◌≡◌, IfSome, ℕ, pos, ◌≤◌, ◌*◌, ◌+◌, ◌-◌, length, option_map};
ghost use Rattle.std.specs.List.{prefix_len};
ghost use Rattle.base.specs.Arithmetic.{is_in_base_range};
ghost use Rattle.clock.specs.Capped.{IsRanged, capped, capped_number, in_range, known_channel, minus_in_range, ranged_value, read_line};
ghost use Rattle.clock.specs.Texts.{behind_byte, digits_value, followed_by, is_digit, is_number, line_at, number_at, value_at};

use base::limits::CHANNELS;

/// A line as it is written. A channel that is none of 1 to 8 is None.
#[derive(Clone, Copy)]
pub(crate) struct Line {
    pub(crate) time: i64,
    pub(crate) channel: Option<u8>,
    pub(crate) value: i64,
}

fn is_digit(c: u8) -> bool
    ensures { result ≡ is_digit c }
{
    48 <= c && c <= 57
}

// How many digits stand at the front.
fn count_digits(text: &[u8]) -> usize
    ensures value { result ≡ prefix_len is_digit text.now }
    ensures in_text { result ≤ length text.now }
{
    text.iter().take_while(|c| is_digit(**c)).count()
}

// Whether no 0 stands before other digits.
fn is_number(digits: &[u8]) -> bool
    ensures { result ≡ is_number digits.now }
{
    match digits {
        [] => false,
        [_] => true,
        [first, _, ..] => *first != 48,
    }
}

// A number with one digit more, or the greatest of 64 bits where that is larger.
#[tactic(auto, using(crate::proofs::Numbers::joined))]
fn with_digit(value: u64, digit: u8) -> u64
    ensures same { result ≡ capped (value * 10 + (digit - 48)) }
    ensures fits { capped result ≡ result }
{
    value
        .saturating_mul(10)
        .saturating_add(u64::from(digit.saturating_sub(48)))
}

// The number that digits write, or the greatest of 64 bits where it is larger.
#[tactic(auto, using(crate::proofs::Numbers::next_turn))]
fn capped_value(digits: &[u8]) -> u64
    ensures { result ≡ capped (digits_value digits.now) }
{
    let mut value: u64 = 0;
    for digit in digits {
        value = with_digit(value, *digit);
    }
    value
}

/// The number at the front of a text, and what is after it: 0, or digits without a leading zero. One that is too large is the greatest of 64 bits.
#[tactic(auto, unfolding(crate::specs::Texts::number_at))]
pub fn number(text: &[u8]) -> Option<(u64, &[u8])>
    ensures { option_map (λ read. (read.0, read.1.now)) result ≡ capped_number (number_at text.now) }
{
    let (digits, behind) = text.split_at(count_digits(text));
    if is_number(digits) {
        Some((capped_value(digits), behind))
    } else {
        None
    }
}

// A number as a value of 64 bits, if it is one.
fn positive(magnitude: u64) -> Option<i64>
    ensures { (n : ℕ) → magnitude ≡ capped n → result ≡ in_range (pos n) }
{
    i64::try_from(magnitude).ok()
}

// The number behind a minus as a value of 64 bits; there is no -0.
fn negative(magnitude: u64) -> Option<i64>
    ensures { (n : ℕ) → magnitude ≡ capped n → result ≡ minus_in_range n }
{
    if magnitude == 0 || 1 << 63 < magnitude {
        return None;
    }
    Some(-1 - (magnitude - 1).cast_signed())
}

/// The value at the front, if it has 64 bits, and what is after it: a number, or `-` before one that isn't 0.
#[tactic(auto, unfolding(crate::specs::Texts::value_at))]
pub fn value(text: &[u8]) -> Option<(i64, &[u8])>
    ensures { option_map (λ read. (read.0, read.1.now)) result ≡ ranged_value (value_at text.now) }
{
    let [first, rest @ ..] = text else {
        return None;
    };
    if *first == b'-' {
        let (magnitude, behind) = number(rest)?;
        Some((negative(magnitude)?, behind))
    } else {
        let (magnitude, behind) = number(text)?;
        Some((positive(magnitude)?, behind))
    }
}

/// What is after this byte, if it is at the front.
pub fn behind(byte: u8, text: &[u8]) -> Option<&[u8]>
    ensures { option_map (λ rest. rest.now) result ≡ behind_byte byte text.now }
{
    match text {
        [first, rest @ ..] if *first == byte => Some(rest),
        _ => None,
    }
}

/// The channel of this number, if it is one of 1 to 8.
pub fn channel(number: u64) -> Option<u8>
    ensures { (n : ℕ) → number ≡ capped n → result ≡ known_channel n }
{
    let number = u8::try_from(number).ok()?;
    if 1 <= number && number <= CHANNELS {
        Some(number)
    } else {
        None
    }
}

/// The line at the front of a text, and what is after it.
#[tactic(auto, unfolding(crate::specs::Texts::line_at))]
pub(crate) fn front_line(text: &[u8]) -> Option<(Line, &[u8])>
    ensures read { option_map (λ read. (read.0, read.1.now)) result ≡ read_line (line_at text.now) }
    ensures ranged { IfSome result (λ read. IsRanged read.0) }
{
    let (time, rest) = number(text)?;
    let (channel_number, rest) = number(behind(b' ', rest)?)?;
    let (value, rest) = value(behind(b' ', rest)?)?;
    let rest = behind(b'\n', rest)?;
    let line = Line {
        time: positive(time)?,
        channel: channel(channel_number),
        value,
    };
    Some((line, rest))
}
