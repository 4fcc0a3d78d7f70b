//! Reading the parts of a line off the front of a text.
ghost use Rattle.std.specs.Prelude.{◌≡◌, ◌≤◌, ◌<◌, ◌+◌, ◌^◌, ℕ, IfSome, length, option_map};
ghost use Rattle.std.specs.List.{prefix_len};
ghost use Rattle.clock.specs.Capped.{capped, capped_number, known_channel};
ghost use Rattle.choices.specs.Shapes.{AreLawfulTimes, field_read, fields_read};
ghost use Rattle.choices.specs.Texts as texts;
ghost use Rattle.choices.specs.Texts.{behind_dots, count_of, fields_at, field_at, is_in_line, latest, times_at, times_behind};

use clock::reading::{behind, channel, number};

/// Times of slots: `first`, `first + step` and so on, up to `last` at most, in microseconds since the start.
#[derive(Clone, Copy, PartialEq, Eq, Debug)]
pub(crate) struct Times {
    pub(crate) first: u64,
    pub(crate) last: u64,
    pub(crate) step: u64,
}

impl Times {
    /// How many they are.
    pub(crate) fn count(&self) -> u64
        requires { AreLawfulTimes self.now }
        ensures { result ≡ count_of self.now }
    {
        (self.last - self.first) / self.step + 1
    }

    /// The last of them.
    pub(crate) fn latest(&self) -> u64
        requires { AreLawfulTimes self.now }
        ensures same { result ≡ latest self.now }
        ensures within { result ≤ self.now.last }
    {
        let steps = (self.last - self.first) / self.step;
        self.first + steps * self.step
    }
}

/// The parts of a line. A channel that is none of 1 to 8 is None.
#[derive(Clone, Copy)]
pub(crate) struct Fields<'a> {
    pub(crate) times: Times,
    pub(crate) channel: Option<u8>,
    pub(crate) alternatives: &'a [u8],
}

/// What follows two dots, if they are at the front.
pub(crate) fn behind_dots(text: &[u8]) -> Option<&[u8]>
    ensures { option_map (λ rest. rest.now) result ≡ behind_dots text.now }
{
    behind(b'.', behind(b'.', text)?)
}

// The times, where they have 64 bits, the last isn't before the first, and the step leads on.
fn times_of(first: u64, last: u64, step: u64) -> Option<Times>
    ensures same { (a b s : ℕ) → first ≡ capped a → last ≡ capped b → step ≡ capped s → result ≡ texts.times_of a b s }
    ensures lawful { IfSome result AreLawfulTimes }
{
    if last < 1 << 63 && step < 1 << 63 && first <= last && 0 < step {
        Some(Times { first, last, step })
    } else {
        None
    }
}

// One time, where it has 64 bits.
fn one_time(time: u64) -> Option<Times>
    ensures same { (a : ℕ) → time ≡ capped a → result ≡ texts.times_of a a 1 }
    ensures lawful { IfSome result AreLawfulTimes }
{
    times_of(time, time, 1)
}

// The times at the front of a text, and what follows them.
#[tactic(auto, unfolding(crate::specs::Texts::times_at))]
fn front_times(text: &[u8]) -> Option<(Times, &[u8])>
    ensures read { option_map (λ read. (read.0, read.1.now)) result ≡ times_at text.now }
    ensures lawful { IfSome result (λ read. AreLawfulTimes read.0) }
{
    let (first, rest) = number(text)?;
    match behind_dots(rest) {
        None => Some((one_time(first)?, rest)),
        Some(more) => {
            let (last, more) = number(more)?;
            let (step, more) = number(behind(b'/', more)?)?;
            Some((times_of(first, last, step)?, more))
        }
    }
}

// What comes before the line feed, and after it.
fn field(text: &[u8]) -> Option<(&[u8], &[u8])>
    ensures { option_map (λ read. (read.0.now, read.1.now)) result ≡ field_at text.now }
{
    let (field, rest) = text.split_at(count_in_line(text));
    Some((field, behind(b'\n', rest)?))
}

// How many bytes stand before the line feed.
fn count_in_line(text: &[u8]) -> usize
    ensures value { result ≡ prefix_len is_in_line text.now }
    ensures in_text { result ≤ length text.now }
{
    text.iter().take_while(|c| is_in_line(**c)).count()
}

fn is_in_line(c: u8) -> bool
    ensures { result ≡ is_in_line c }
{
    c != b'\n'
}

/// The parts of the line at the front of a text, and what follows it.
#[tactic(auto, unfolding(crate::specs::Texts::fields_at))]
pub(crate) fn front_fields(text: &[u8]) -> Option<(Fields<'_>, &[u8])>
    ensures read { option_map (λ read. (fields_read read.0, read.1.now)) result ≡ field_read (fields_at text.now) }
    ensures lawful { IfSome result (λ read. AreLawfulTimes read.0.times) }
{
    let (times, rest) = front_times(text)?;
    let (channel_number, rest) = number(behind(b' ', rest)?)?;
    let (alternatives, rest) = field(behind(b' ', rest)?)?;
    let fields = Fields {
        times,
        channel: channel(channel_number),
        alternatives,
    };
    Some((fields, rest))
}
