//! Where the run on a choice begins: at the last checkpoint on its way, or at time 0.
ghost use Rattle.std.specs.Prelude.{◌≡◌, ◌≤◌, ℤ, IfOk, IfSome, int_lt, length, take, true};
ghost use Rattle.std.specs.List.{prefix_len};
ghost use Rattle.choices.specs.Places.{AreWithin};
ghost use Rattle.searching.specs.Following.{AreCheckpoints, IsCheckpoint, Standing};
ghost use Rattle.searching.specs.Meeting.{schedule_of};
ghost use Rattle.searching.specs.declared.sight.Wanted.{Wanted as Asked};
ghost use Rattle.tasking.specs.Held.{kernel_of};

use crate::following::Midst;
use crate::path::{Checkpoint, Path};
use base::ScheduleLine;
use choices::{Choice, Choices};
use clock::{HeapDelays, Schedule};
use dispatch::RingReady;
use execution::{Execution, Rooms};
use image::Image;
use image_laws::{outcome_stays, steps_whole};
use kernel::laws::left_unmoved;
use std::alloc::{AllocError, Global};
use tasking::laws::kept_with_lines;

/// The run on a choice, at the last checkpoint if that is on its way, in these rooms, and otherwise at time 0, and where it is then.
///
/// # Errors
/// Where memory was refused.
#[inline(never)]
pub(crate) fn begin<'a, 's>(
    alloc: Global,
    image: &'a Image,
    choices: &Choices,
    choice: &Choice,
    schedule: &'s Schedule,
    limit: u64,
    path: &Path,
    rooms: Option<Box<Rooms<'a>>>,
) -> Result<(Execution<'a, 's, RingReady, HeapDelays>, Midst), AllocError>
    requires schedule { schedule.now ≡ schedule_of choices.now choice.now }
    requires within { AreWithin choices.now choice.now }
    requires rooms { IfSome rooms (λ r. r.value ≡ image.now) }
    requires checkpoints { (until : ℤ) × (wanted : Asked) × AreCheckpoints image.now choices.now until limit wanted path.now }
    ensures image { IfOk result (λ begun. begun.0.image ≡ image.now) }
    ensures stands { IfOk result (λ begun. (until : ℤ) (wanted : Asked) → AreCheckpoints image.now choices.now until limit wanted path.now
        → Standing image.now schedule.now until limit wanted begun.0 (kernel_of begun.0.tasking).now begun.1.left) }
{
    let Some(rooms) = rooms else {
        let begun = begin_first(alloc, image, schedule, limit)?;
        return Ok(begun);
    };
    let Some(checkpoint) = path.last_for(choice) else {
        let begun = begin_first(alloc, image, schedule, limit)?;
        return Ok(begun);
    };
    let execution = resume(
        alloc, image, choices, choice, schedule, limit, checkpoint, rooms,
    )?;
    let left = checkpoint.left();
    let front = checkpoint.front();
    Ok((execution, Midst { left, front }))
}

// The run at time 0.
fn begin_first<'a, 's>(
    alloc: Global,
    image: &'a Image,
    schedule: &'s Schedule,
    limit: u64,
) -> Result<(Execution<'a, 's, RingReady, HeapDelays>, Midst), AllocError>
    ensures image { IfOk result (λ begun. begun.0.image ≡ image.now) }
    ensures stands { IfOk result (λ begun. (until : ℤ) (wanted : Asked)
        → Standing image.now schedule.now until limit wanted begun.0 (kernel_of begun.0.tasking).now begun.1.left) }
{
    left_unmoved();
    let execution = Execution::start(alloc, image, schedule)?;
    Ok((
        execution,
        Midst {
            left: limit,
            front: 0,
        },
    ))
}

// The run on a choice at a checkpoint on its way.
fn resume<'a, 's>(
    alloc: Global,
    image: &Image,
    choices: &Choices,
    choice: &Choice,
    schedule: &'s Schedule,
    limit: u64,
    checkpoint: &Checkpoint,
    rooms: Box<Rooms<'a>>,
) -> Result<Execution<'a, 's, RingReady, HeapDelays>, AllocError>
    requires schedule { schedule.now ≡ schedule_of choices.now choice.now }
    requires within { AreWithin choices.now choice.now }
    requires rooms { rooms.value ≡ image.now }
    requires on_way { take checkpoint.now.front choice.now ≡ take checkpoint.now.front checkpoint.now.choice }
    requires checkpoint { (until : ℤ) × (wanted : Asked) × IsCheckpoint image.now choices.now until limit wanted checkpoint.now }
    ensures image { IfOk result (λ e. e.image ≡ image.now) }
    ensures stands { IfOk result (λ e. (until : ℤ) (wanted : Asked) → IsCheckpoint image.now choices.now until limit wanted checkpoint.now
        → Standing image.now schedule.now until limit wanted e (kernel_of e.tasking).now checkpoint.now.left) }
{
    outcome_stays();
    steps_whole();
    kept_with_lines();
    let _instructions = image.instructions();
    let _slots = choices.slots();
    let passed = count_before(schedule.lines(), checkpoint.time());
    let execution = Box::into_inner(rooms).resume(
        alloc,
        checkpoint.contents(),
        checkpoint.pause(),
        schedule,
        passed,
    )?;
    Ok(execution)
}

// How many lines come before the first that isn't before a time.
fn count_before(lines: &[ScheduleLine], time: i64) -> usize
    ensures same { result ≡ prefix_len (λ l. int_lt l.time time) lines.now }
    ensures within { result ≤ length lines.now }
{
    lines
        .iter()
        .take_while(|line| is_before(line, time))
        .count()
}

fn is_before(line: &ScheduleLine, time: i64) -> bool
    ensures { result ≡ int_lt line.now.time time }
{
    line.time < time
}
