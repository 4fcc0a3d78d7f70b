//! What is found in the lines and in the outcome of a run.
ghost use Rattle.std.specs.Prelude.{◌≡◌, ◌<◌, ◌-◌};
ghost use Rattle.execution.specs.Held.{line_of};
ghost use Rattle.image.specs.Texts.{text_at};
ghost use Rattle.tasking.specs.Held.{kernel_of, some_outcome};
ghost use Rattle.searching.specs.Judging.{AreSame, FoundIn, FoundLine, JudgedOutcome};

use crate::sight::{Finding, Wanted};
use clock::Delays;
use dispatch::Ready;
use execution::{Execution, Line};
use image::Image;
use tasking::Outcome;

/// What the run on one schedule comes to.
#[derive(Clone, Copy, PartialEq, Eq, Debug)]
pub enum Answer {
    /// What is wanted.
    Found(Finding),
    /// Something else, or the end of the search.
    Nothing,
    /// More steps than the limit at this time, in microseconds.
    TooLong(i64),
}

// The label of this number, or none where there isn't one.
pub(crate) fn label_at(image: &Image, number: u16) -> &[u8]
    ensures { result.now ≡ text_at image.now.labels number }
{
    match image.labels().get(usize::from(number)) {
        Some(text) => text.as_bytes(),
        None => &[],
    }
}

// Whether two labels are the same.
fn are_same(one: &[u8], other: &[u8]) -> bool
    ensures { AreSame result one.now other.now }
{
    one == other
}

// Whether the line is wanted, and not later than the end of the search.
fn is_wanted(image: &Image, wanted: Wanted<'_>, until: i64, line: &Line) -> bool
    ensures { FoundLine result image.now wanted.entry until (line_of image.now line.now) }
{
    let Wanted::Line(label) = wanted else {
        return false;
    };
    if until < line.time {
        return false;
    }
    are_same(label_at(image, line.label), label)
}

// The line of a step, if it is wanted.
pub(crate) fn wanted_line(
    image: &Image,
    wanted: Wanted<'_>,
    until: i64,
    line: Option<Line>,
) -> Option<Line>
    ensures { FoundIn image.now wanted.entry until line result }
{
    let line = line?;
    if is_wanted(image, wanted, until, &line) {
        Some(line)
    } else {
        None
    }
}

// Virtual time, in microseconds since the start.
pub(crate) fn time_of<R: Ready, D: Delays>(execution: &Execution<'_, '_, R, D>) -> i64
    ensures { result ≡ (kernel_of execution.now.tasking).now }
{
    execution.tasking().now()
}

// How the run has come to its end, if it has.
pub(crate) fn ending_of<R: Ready, D: Delays>(execution: &Execution<'_, '_, R, D>) -> Option<Outcome>
    ensures { some_outcome result ≡ (kernel_of execution.now.tasking).outcome }
{
    execution.tasking().outcome()
}

// What is found where an exception has left the body of a task.
fn unhandled_found(wanted: Wanted<'_>, exception: u16, task: u8, time: i64) -> Answer
    ensures { JudgedOutcome wanted.entry (Outcome.Unhandled exception task) time result }
{
    match wanted {
        Wanted::UnhandledOrWaits | Wanted::Unhandled => Answer::Found(Finding::Unhandled {
            exception,
            task,
            time,
        }),
        Wanted::WaitsForever | Wanted::Line(_) => Answer::Nothing,
    }
}

// What is found where all wait forever.
fn waiting_found(wanted: Wanted<'_>, time: i64) -> Answer
    ensures { JudgedOutcome wanted.entry Outcome.WaitsForever time result }
{
    match wanted {
        Wanted::UnhandledOrWaits | Wanted::WaitsForever => {
            Answer::Found(Finding::WaitsForever { time })
        }
        Wanted::Unhandled | Wanted::Line(_) => Answer::Nothing,
    }
}

// What is found where a run has come to an outcome at this time.
pub(crate) fn outcome_found(wanted: Wanted<'_>, outcome: Outcome, time: i64) -> Answer
    ensures { JudgedOutcome wanted.entry outcome time result }
{
    match outcome {
        Outcome::Unhandled { exception, task } => unhandled_found(wanted, exception, task, time),
        Outcome::WaitsForever => waiting_found(wanted, time),
        Outcome::Ended | Outcome::ImageFault => Answer::Nothing,
    }
}

// How many steps may be taken at this time after a step: one less where the clock has not moved.
pub(crate) fn left_behind(left: u64, limit: u64, now: i64, later: i64) -> u64
    requires { 0 < left }
    ensures same { later ≡ now → result ≡ left - 1 }
    ensures moved { (later ≡ now → ⊥) → result ≡ limit }
{
    if later == now { left - 1 } else { limit }
}
