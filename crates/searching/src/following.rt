//! The run on one choice, up to what is wanted, or to a world in which an earlier one was.
ghost use Rattle.std.specs.Prelude.{◌≡◌, IfOk, IsTrue, OnOk, true};
ghost use Rattle.base.specs.Schedule.{is_schedule};
ghost use Rattle.choices.specs.Parts.{is_of_part};
ghost use Rattle.choices.specs.Places.{AreWithin};
ghost use Rattle.execution.specs.Held.{world_of};
ghost use Rattle.searching.specs.Following.{AreCheckpoints, AreKeptRows, ComesAlong, EndsAs, IsOverThere, Standing};
ghost use Rattle.searching.specs.Meeting.{schedule_of};
ghost use Rattle.tasking.specs.Held.{kernel_of};

use crate::crossing::cross;
use crate::moment::Moment;
use crate::one::{Answer, ending_of, left_behind, outcome_found, time_of, wanted_line};
use crate::parting::{is_at_end, parting_time};
use crate::path::Path;
use crate::sight::{Finding, Wanted};
use crate::table::Table;
use choices::{Choice, Choices, Part, Slot};
use clock::{Delays, Schedule};
use dispatch::Ready;
use execution::Execution;
use image_laws::outcome_stays;
use kernel::laws::left_unmoved;
use processor::Steps;
use std::alloc::{AllocError, Global};
use std::sync::ledger::Ledger;
use tasking::Outcome;

/// What the run on a choice comes to.
#[derive(Clone, Copy, PartialEq, Eq, Debug)]
pub(crate) enum Followed {
    /// What is wanted.
    Found(Finding),
    /// More steps than the limit at this time, in microseconds.
    TooLong(i64),
    /// Something else, or the end of the search.
    Nothing,
    /// The world in which an earlier run was, before the times of the slots after so many first ones.
    Met(usize),
    /// Something else, before the times of the slots after so many first ones.
    Over(usize),
}

/// Where a run goes on: how many steps may be taken at its time, and how many first slots have passed.
#[derive(Clone, Copy, PartialEq, Eq, Debug)]
pub(crate) struct Midst {
    pub(crate) left: u64,
    pub(crate) front: usize,
}

/// Goes on with the run on a choice, with `limit` steps at one time at most, each of which is counted, up to what is wanted, another outcome, the end of the
/// search, or a world in which an earlier run of the part was.
///
/// # Errors
/// Where memory was refused.
pub(crate) fn follow<R: Ready, D: Delays, L: Ledger>(
    alloc: Global,
    execution: &mut Execution<'_, '_, R, D>,
    choices: &Choices,
    part: Part,
    choice: &Choice,
    schedule: &Schedule,
    midst: Midst,
    until: i64,
    limit: u64,
    wanted: Wanted<'_>,
    path: &mut Path,
    table: &mut Table,
    steps: &mut Steps<L>,
) -> Result<Followed, AllocError>
    requires start { Standing execution.old.image schedule.now until limit wanted execution.old (kernel_of execution.old.tasking).now midst.left }
    requires schedule { schedule.now ≡ schedule_of choices.now choice.now }
    requires lawful { IsTrue (is_schedule schedule.now) }
    requires within { AreWithin choices.now choice.now }
    requires is_of { is_of_part part choices.now choice.now ≡ true }
    requires checkpoints { AreCheckpoints execution.old.image choices.now until limit wanted path.old }
    requires rows { AreKeptRows execution.old.image choices.now part table.old }
    ensures answer { IfOk result (ComesAlong execution.old.image choices.now part until limit wanted.entry choice.now) }
    ensures image { execution.new.image ≡ execution.old.image }
    ensures checkpoints { OnOk result (AreCheckpoints execution.old.image choices.now until limit wanted.entry path.new) }
    ensures rows { OnOk result (AreKeptRows execution.old.image choices.now part table.new) }
{
    outcome_stays();
    left_unmoved();
    let slots = choices.slots();
    let first = choice.first_from();
    let mut now = time_of(execution);
    let mut left = midst.left;
    let mut front = midst.front;
    while now <= until {
        match ending_of(execution) {
            Some(outcome) => return Ok(ended(execution, slots, front, wanted, outcome, now)),
            None => {}
        }
        if left == 0 {
            return Ok(Followed::TooLong(now));
        }
        let moment = Moment::of(alloc, execution, choices, schedule, first, front, table)?;
        let told = execution.step(steps);
        match wanted_line(execution.image(), wanted, until, told) {
            Some(line) => return Ok(Followed::Found(Finding::Line(line))),
            None => {}
        }
        let later = time_of(execution);
        let passed = first_later(slots, front, later);
        let met = cross(
            alloc, execution, choices, part, choice, schedule, moment, front, passed, left, path,
            table,
        )?;
        match met {
            Some(met) => return Ok(Followed::Met(met)),
            None => {}
        }
        front = passed;
        left = left_behind(left, limit, now, later);
        now = later;
    }
    Ok(Followed::Nothing)
}

// What a run comes to that has ended at this time, after so many first slots.
fn ended<R: Ready, D: Delays>(
    execution: &Execution<'_, '_, R, D>,
    slots: &[Slot],
    front: usize,
    wanted: Wanted<'_>,
    outcome: Outcome,
    now: i64,
) -> Followed
    ensures { EndsAs slots.now wanted.entry outcome now (world_of execution.now).kernel result }
{
    match outcome_found(wanted, outcome, now) {
        Answer::Found(finding) => Followed::Found(finding),
        Answer::TooLong(time) => Followed::TooLong(time),
        Answer::Nothing => over(execution, slots, front),
    }
}

// Whether no later slot can change that it has ended.
fn over<R: Ready, D: Delays>(
    execution: &Execution<'_, '_, R, D>,
    slots: &[Slot],
    front: usize,
) -> Followed
    ensures { IsOverThere slots.now (world_of execution.now).kernel result }
{
    let Some(time) = parting_time(slots, front) else {
        return Followed::Nothing;
    };
    if is_at_end(execution, time) {
        Followed::Over(front)
    } else {
        Followed::Nothing
    }
}

// The first slot from this one on that is later than a time.
fn first_later(slots: &[Slot], front: usize, now: i64) -> usize {
    let mut at = front;
    while at < slots.len() {
        if now < slots[at].time() {
            return at;
        }
        at += 1;
    }
    at
}
