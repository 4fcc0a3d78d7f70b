//! The texts of values, of the start, of steps and of the end.
ghost use Rattle.std.specs.Prelude.{◌≡◌, ◌+◌, ◌*◌, ◌≤◌, ◌++◌, None, false, length, vec_capacity, vec_len};
ghost use Rattle.std.specs.Fmt.{digits};
ghost use Rattle.arrayvec.specs.ArrayVec.{array_vec_len};
ghost use Rattle.waveforms.specs.LastValues.{written_values};
ghost use Rattle.waveforms.specs.TimeWaves.{instant_text};
ghost use Rattle.waveforms.specs.Waves as waves;
ghost use Rattle.waveforms.specs.Waves.{all_changes_text, changes_text, comment_text, ending_text, line_changes_text, line_value_text, line_values_text, start_text, tick_text, value_text, values_text};
ghost use Rattle.waveforms.specs.declared.text.TheConstants.{FRONT_BYTES, STEP_BYTES, VALUE_BYTES};

use crate::lines::Lines;
use arrayvec::ArrayVec;
use itoa::Buffer;
use machine::{LINE_BYTES, LineText};

/// The first of the characters of codes.
const FIRST_CODE: u8 = 33;

/// How many characters codes are made of.
const CODES: usize = 94;

/// The most bytes of a code: 94 to the power of 10 is more than any number of 64 bits.
pub(crate) const CODE_BYTES: usize = 10;

/// The most bytes of a value's line: 64 digits, the code, and what is around these.
pub(crate) const VALUE_BYTES: usize = 77;

/// The most bytes of a tick's line.
const TICK_BYTES: usize = 42;

/// The most bytes before the values of the start.
const FRONT_BYTES: usize = TICK_BYTES + 10;

/// The most bytes of a step's text, or of the start's, whose end has 5, beside the lines of values.
pub(crate) const STEP_BYTES: usize = FRONT_BYTES + 5;

/// The most bytes of a comment with a line of the run.
const COMMENT_BYTES: usize = LINE_BYTES + 14;

/// The most bytes of the end.
const ENDING_BYTES: usize = TICK_BYTES + COMMENT_BYTES;

/// Appends the bytes, for which there is room.
pub(crate) fn put<const ROOM: usize>(text: &mut ArrayVec<u8, ROOM>, bytes: &[u8])
    requires { array_vec_len text.old + length bytes.now ≤ ROOM }
    ensures items { text.new.items ≡ text.old.items ++ bytes.now }
    ensures len { array_vec_len text.new ≡ array_vec_len text.old + length bytes.now }
{
    let _ = text.try_extend_from_slice(bytes);
}

// Appends the bytes, for which there is room.
fn append(text: &mut Vec<u8>, bytes: &[u8])
    requires { vec_len text.old + length bytes.now ≤ vec_capacity text.old }
    ensures items { text.new.items ≡ text.old.items ++ bytes.now }
    ensures len { vec_len text.new ≡ vec_len text.old + length bytes.now }
    ensures capacity { vec_capacity text.old ≤ vec_capacity text.new }
{
    let _ = text.extend_from_slice(bytes);
}

// A number in binary, without leading zeros.
fn binary(number: u64) -> ArrayVec<u8, 64>
    ensures { result.items ≡ digits 2 false number }
{
    let mut digits = ArrayVec::new();
    let mut left = number;
    while digits.len() < 64 {
        digits.insert(0, b'0' + (left % 2) as u8);
        left /= 2;
        if left == 0 {
            return digits;
        }
    }
    digits
}

/// The code of a signal.
pub(crate) fn signal_code(signal: usize) -> ArrayVec<u8, CODE_BYTES>
    ensures { result.items ≡ waves.signal_code signal }
{
    let mut code = ArrayVec::new();
    let mut left = signal;
    while code.len() < CODE_BYTES {
        if left < CODES {
            code.insert(0, FIRST_CODE + left as u8);
            return code;
        }
        code.insert(0, FIRST_CODE + (left % CODES) as u8);
        left /= CODES;
    }
    code
}

// The line of a signal's value.
fn value_line(signal: usize, value: u64) -> ArrayVec<u8, VALUE_BYTES>
    ensures { result.items ≡ value_text signal value }
{
    let mut line = ArrayVec::new();
    put(&mut line, b"b");
    put(&mut line, binary(value).as_slice());
    put(&mut line, b" ");
    put(&mut line, signal_code(signal).as_slice());
    put(&mut line, b"\n");
    line
}

// Appends the lines of all values.
fn put_values(text: &mut Vec<u8>, values: &[u64])
    requires { vec_len text.old + length values.now * VALUE_BYTES ≤ vec_capacity text.old }
    ensures items { text.new.items ≡ text.old.items ++ values_text 0 values.now }
    ensures len { vec_len text.new ≤ vec_len text.old + length values.now * VALUE_BYTES }
    ensures capacity { vec_capacity text.old ≤ vec_capacity text.new }
{
    for signal in 0..values.len() {
        append(text, value_line(signal, values[signal]).as_slice());
    }
}

// Appends the lines of the values that are other ones than before.
fn put_changes(text: &mut Vec<u8>, before: &[u64], after: &[u64])
    requires { vec_len text.old + length after.now * VALUE_BYTES ≤ vec_capacity text.old }
    ensures items { text.new.items ≡ text.old.items ++ changes_text 0 before.now after.now }
    ensures len { vec_len text.new ≤ vec_len text.old + length after.now * VALUE_BYTES }
    ensures capacity { vec_capacity text.old ≤ vec_capacity text.new }
{
    let mut signal = 0;
    while signal < before.len() && signal < after.len() {
        if before[signal] != after[signal] {
            append(text, value_line(signal, after[signal]).as_slice());
        }
        signal += 1;
    }
}

// The line of the value of a label's last line, if there is one so far.
fn line_value_line(signal: usize, value: Option<u64>) -> ArrayVec<u8, VALUE_BYTES>
    ensures { result.items ≡ line_value_text signal value }
{
    match value {
        None => unknown_line(signal),
        Some(value) => value_line(signal, value),
    }
}

// The line of a value that isn't known yet.
fn unknown_line(signal: usize) -> ArrayVec<u8, VALUE_BYTES>
    ensures { result.items ≡ line_value_text signal None }
{
    let mut line = ArrayVec::new();
    put(&mut line, b"bx ");
    put(&mut line, signal_code(signal).as_slice());
    put(&mut line, b"\n");
    line
}

// Whether two values are the same.
fn is_same_value(left: Option<u64>, right: Option<u64>) -> bool
    ensures { result ≡ waves.is_same_value left right }
{
    match (left, right) {
        (None, None) => true,
        (Some(left), Some(right)) => left == right,
        _ => false,
    }
}

// Appends the lines of the values of lines, the first of which has this signal.
fn put_line_values(text: &mut Vec<u8>, first: usize, values: &[Option<u64>])
    requires room { vec_len text.old + length values.now * VALUE_BYTES ≤ vec_capacity text.old }
    requires few { first + length values.now ≤ vec_capacity text.old }
    ensures items { text.new.items ≡ text.old.items ++ line_values_text first values.now }
    ensures len { vec_len text.new ≤ vec_len text.old + length values.now * VALUE_BYTES }
    ensures capacity { vec_capacity text.old ≤ vec_capacity text.new }
{
    let _capacity = text.capacity();
    let mut signal = first;
    for value in values {
        append(text, line_value_line(signal, *value).as_slice());
        signal += 1;
    }
}

// Appends the lines of those that are other ones than before.
fn put_line_changes(text: &mut Vec<u8>, first: usize, before: &[Option<u64>], after: &[Option<u64>])
    requires room { vec_len text.old + length after.now * VALUE_BYTES ≤ vec_capacity text.old }
    requires few { first + length after.now ≤ vec_capacity text.old }
    ensures items { text.new.items ≡ text.old.items ++ line_changes_text first before.now after.now }
    ensures capacity { vec_capacity text.old ≤ vec_capacity text.new }
{
    let _capacity = text.capacity();
    let mut index = 0;
    while index < before.len() && index < after.len() {
        if !is_same_value(before[index], after[index]) {
            append(
                text,
                line_value_line(first + index, after[index]).as_slice(),
            );
        }
        index += 1;
    }
}

// The line of a tick.
fn tick_line(tick: u128) -> ArrayVec<u8, TICK_BYTES>
    ensures { result.items ≡ tick_text tick }
{
    let mut line = ArrayVec::new();
    put(&mut line, b"#");
    put(&mut line, Buffer::new().format(tick).as_bytes());
    put(&mut line, b"\n");
    line
}

/// Makes the text of the start, at this tick: all values, and after them those of lines.
pub(crate) fn start_text(text: &mut Vec<u8>, tick: u64, values: &[u64], lines: &Lines<'_>)
    requires { STEP_BYTES + (length values.now + length lines.now.labels) * VALUE_BYTES ≤ vec_capacity text.old }
    ensures items { text.new.items ≡ start_text tick (record { known = values.now; lines = lines.now.current }) }
    ensures capacity { vec_capacity text.old ≤ vec_capacity text.new }
{
    text.clear();
    append(text, tick_line(u128::from(tick)).as_slice());
    append(text, b"$dumpvars\n");
    put_values(text, values);
    put_line_values(text, values.len(), lines.current());
    append(text, b"$end\n");
}

/// Makes the text of a tick with the values that have changed, and after them those of lines.
pub(crate) fn changed_text(
    text: &mut Vec<u8>,
    tick: u64,
    before: &[u64],
    after: &[u64],
    lines: &Lines<'_>,
)
    requires { STEP_BYTES + (length after.now + length lines.now.labels) * VALUE_BYTES ≤ vec_capacity text.old }
    ensures items { text.new.items ≡ tick_text tick
        ++ all_changes_text (record { known = before.now; lines = lines.now.written }) (record { known = after.now; lines = lines.now.current }) }
    ensures capacity { vec_capacity text.old ≤ vec_capacity text.new }
{
    text.clear();
    append(text, tick_line(u128::from(tick)).as_slice());
    put_changes(text, before, after);
    put_line_changes(text, after.len(), lines.written(), lines.current());
}

/// Makes the text of a step: a tick with the values that have changed, or none where none has.
pub(crate) fn step_text(
    text: &mut Vec<u8>,
    step: u64,
    before: &[u64],
    after: &[u64],
    lines: &Lines<'_>,
)
    requires { STEP_BYTES + (length after.now + length lines.now.labels) * VALUE_BYTES ≤ vec_capacity text.old }
    ensures items { text.new.items
        ≡ waves.step_text step (record { known = before.now; lines = lines.now.written }) (record { known = after.now; lines = lines.now.current }) }
    ensures capacity { vec_capacity text.old ≤ vec_capacity text.new }
{
    changed_text(text, step, before, after, lines);
    if text.len() == tick_line(u128::from(step)).len() {
        text.clear();
    }
}

/// Makes the text of an instant at this time (microseconds since the start): all values where none were written, or else those that have changed.
#[inline(never)]
pub(crate) fn instant_text(
    text: &mut Vec<u8>,
    time: u64,
    is_written: bool,
    before: &[u64],
    after: &[u64],
    lines: &Lines<'_>,
)
    requires { STEP_BYTES + (length after.now + length lines.now.labels) * VALUE_BYTES ≤ vec_capacity text.old }
    ensures items { text.new.items ≡ instant_text time (written_values is_written (record { known = before.now; lines = lines.now.written }))
        (record { known = after.now; lines = lines.now.current }) }
    ensures capacity { vec_capacity text.old ≤ vec_capacity text.new }
{
    if is_written {
        changed_text(text, time, before, after, lines);
    } else {
        start_text(text, time, after, lines);
    }
}

/// The comment with the last line of the run.
pub(crate) fn comment_text(last: &LineText) -> ArrayVec<u8, COMMENT_BYTES>
    ensures { result.items ≡ comment_text last.now.items }
{
    let mut text = ArrayVec::new();
    put(&mut text, b"$comment ");
    put(&mut text, last.as_slice());
    put(&mut text, b"$end\n");
    text
}

/// The text of the end, after so many steps, with the last line of the run.
pub(crate) fn ending_text(taken: u64, last: &LineText) -> ArrayVec<u8, ENDING_BYTES>
    ensures { result.items ≡ ending_text taken last.now.items }
{
    let mut text = ArrayVec::new();
    put(&mut text, tick_line(u128::from(taken) + 1).as_slice());
    put(&mut text, comment_text(last).as_slice());
    text
}
