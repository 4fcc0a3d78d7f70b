//! The search through all schedules of a part of a set.
ghost use Rattle.std.specs.Prelude.{◌≡◌, ℕ, ℤ, IfOk, IfSome, IsTrue, None, OnOk, true};
ghost use Rattle.base.specs.Schedule.{is_schedule};
ghost use Rattle.choices.specs.Parts.{is_of_part};
ghost use Rattle.choices.specs.Places.{AreWithin, taken};
ghost use Rattle.choices.specs.Slots.{lines_of};
ghost use Rattle.choices.specs.declared.part.Part.{Part as SetPart};
ghost use Rattle.image.specs.Sections.{Sections};
ghost use Rattle.searching.specs.Following.{AreCheckpoints, AreKeptRows, ComesAlong};
ghost use Rattle.searching.specs.Meeting.{schedule_of};
ghost use Rattle.searching.specs.Passing.{ComesOut, MayGoOn, RunComesTo, Through};
ghost use Rattle.searching.specs.Searches.{FindsFirst, Searches};
ghost use Rattle.searching.specs.declared.sight.Wanted.{Wanted as Asked};

use crate::beginning::begin;
use crate::following::{Followed, follow};
use crate::path::Path;
use crate::progress::Progress;
use crate::sight::{Finding, Wanted};
use crate::table::Table;
use choices::{Choice, Choices, Part};
use clock::{HeapDelays, Schedule};
use dispatch::RingReady;
use execution::{Execution, Rooms};
use image::Image;
use image_laws::{lines_unread, outcome_stays};
use kernel::laws::left_unmoved;
use processor::Steps;
use std::alloc::{AllocError, Global};
use std::sync::ledger::Ledger;
use tasking::laws::lines_apart;

/// What a search has come to.
#[derive(Drop)]
pub enum Searched {
    /// Under this schedule of the part the run comes to this.
    Found(Schedule, Finding),
    /// Under none, and so many worlds were kept, to compare later ones with.
    Nothing(u64),
    /// Under this schedule the run takes more steps than the limit at this time, in microseconds.
    TooLong(Schedule, i64),
}

/// Runs an image on the schedules of a part of a set, in the order of alternatives, where the first slot counts most, up to `until` (microseconds since the
/// start) and with `limit` steps at one time at most, each of which is counted, until one reaches what is wanted. A run goes on from the last world on the way
/// of the run before it, before whose time both schedules have the same lines. Where a run is, just before the time of some slot, in a world in which an
/// earlier one was, schedules that differ from its own from that time on are passed over: the earlier one, continued so, has the same result. After each run
/// it reports how far it is.
///
/// # Errors
/// Where memory was refused.
pub fn search<P: Progress, L: Ledger>(
    alloc: Global,
    image: &Image,
    choices: &Choices,
    part: Part,
    until: i64,
    limit: u64,
    wanted: Wanted<'_>,
    progress: &mut P,
    steps: &mut Steps<L>,
) -> Result<Searched, AllocError>
    ensures answer { IfOk result (Searches image.now choices.now part until limit wanted.entry) }
    ensures first { IfOk result (FindsFirst image.now choices.now part until limit wanted.entry) }
{
    let _slots = choices.slots();
    let mut table = Table::new(alloc);
    let mut path = Path::new(alloc);
    let mut rooms = None;
    let mut choice = Choice::first(alloc, choices)?;
    let mut runs: u64 = 0;
    let mut is_more = true;
    while is_more {
        let found = pass(
            alloc,
            image,
            choices,
            part,
            &mut choice,
            until,
            limit,
            wanted,
            &mut path,
            &mut table,
            &mut rooms,
            &mut runs,
            steps,
        )?;
        match found {
            Some(searched) => return Ok(searched),
            None => {}
        }
        is_more = choice.advance(choices);
        report_some(progress, choices, &choice, runs, table.count());
    }
    Ok(Searched::Nothing(table.count()))
}

// Reports how far a search is, after each 16th run: where that is follows from all slots.
fn report_some<P: Progress>(
    progress: &mut P,
    choices: &Choices,
    choice: &Choice,
    runs: u64,
    worlds: u64,
) {
    if runs % 16 == 0 {
        progress.report(choice.millionths(choices), runs, worlds);
    }
}

// Runs the image on the schedule of a choice, if it is of the part. If nothing is found, the choice becomes the last one under whose schedule nothing is, by
// this run.
fn pass<'a, L: Ledger>(
    alloc: Global,
    image: &'a Image,
    choices: &Choices,
    part: Part,
    choice: &mut Choice,
    until: i64,
    limit: u64,
    wanted: Wanted<'_>,
    path: &mut Path,
    table: &mut Table,
    rooms: &mut Option<Box<Rooms<'a>>>,
    runs: &mut u64,
    steps: &mut Steps<L>,
) -> Result<Option<Searched>, AllocError>
    requires through { Through image.now choices.now part until limit wanted true choice.old }
    requires checkpoints { AreCheckpoints image.now choices.now until limit wanted path.old }
    requires rows { AreKeptRows image.now choices.now part table.old }
    requires rooms { IfSome rooms.old (λ r. r.value ≡ image.now) }
    ensures found { IfOk result (λ found. IfSome found (ComesOut image.now choices.now part until limit wanted.entry)) }
    ensures passed { IfOk result (λ found. found ≡ None → MayGoOn image.now choices.now part until limit wanted.entry choice.old choice.new) }
    ensures checkpoints { OnOk result (AreCheckpoints image.now choices.now until limit wanted.entry path.new) }
    ensures rows { OnOk result (AreKeptRows image.now choices.now part table.new) }
    ensures rooms { OnOk result (IfSome rooms.new (λ r. r.value ≡ image.now)) }
{
    if !choice.is_of_part(choices, part) {
        choice.go_to_last(choices, part.front(choices));
        return Ok(None);
    }
    *runs = runs.saturating_add(1);
    let schedule = choice.schedule(alloc, choices)?;
    path.keep_those_of(choice);
    let followed = run_on(
        alloc, image, choices, part, choice, &schedule, until, limit, wanted, path, table, rooms,
        steps,
    )?;
    Ok(conclude(choices, choice, schedule, followed))
}

// What the run on a choice of the part comes to, in these rooms, where the checkpoints are on its way.
fn run_on<'a, L: Ledger>(
    alloc: Global,
    image: &'a Image,
    choices: &Choices,
    part: Part,
    choice: &Choice,
    schedule: &Schedule,
    until: i64,
    limit: u64,
    wanted: Wanted<'_>,
    path: &mut Path,
    table: &mut Table,
    rooms: &mut Option<Box<Rooms<'a>>>,
    steps: &mut Steps<L>,
) -> Result<Followed, AllocError>
    requires schedule { schedule.now ≡ schedule_of choices.now choice.now }
    requires lawful { IsTrue (is_schedule schedule.now) }
    requires within { AreWithin choices.now choice.now }
    requires is_of { is_of_part part choices.now choice.now ≡ true }
    requires checkpoints { AreCheckpoints image.now choices.now until limit wanted path.old }
    requires rows { AreKeptRows image.now choices.now part table.old }
    requires rooms { IfSome rooms.old (λ r. r.value ≡ image.now) }
    ensures comes { IfOk result (ComesAlong image.now choices.now part until limit wanted.entry choice.now) }
    ensures checkpoints { OnOk result (AreCheckpoints image.now choices.now until limit wanted.entry path.new) }
    ensures rows { OnOk result (AreKeptRows image.now choices.now part table.new) }
    ensures rooms { OnOk result (IfSome rooms.new (λ r. r.value ≡ image.now)) }
{
    let taken = rooms.take();
    let begun = begin(alloc, image, choices, choice, schedule, limit, path, taken)?;
    let (mut run, midst) = begun;
    let followed = follow(
        alloc, &mut run, choices, part, choice, schedule, midst, until, limit, wanted, path, table,
        steps,
    )?;
    let left = rooms_of(alloc, run)?;
    *rooms = Some(left);
    Ok(followed)
}

// The memory of a run, for the next one.
#[inline(never)]
fn rooms_of<'a>(
    alloc: Global,
    run: Execution<'a, '_, RingReady, HeapDelays>,
) -> Result<Box<Rooms<'a>>, AllocError>
    ensures { IfOk result (λ r. r.value ≡ run.entry.image) }
{
    let rooms = Box::new(alloc, run.into_rooms())?;
    Ok(rooms)
}

// What the search comes to by the run on a choice, if to anything. If it comes to nothing, the choice becomes the last one under whose schedule nothing is
// found, by this run.
fn conclude(
    choices: &Choices,
    choice: &mut Choice,
    schedule: Schedule,
    followed: Followed,
) -> Option<Searched>
    requires within { AreWithin choices.now choice.old }
    requires schedule { schedule ≡ lines_of choices.now (taken choices.now choice.old) }
    ensures found { (i : Sections) (part : SetPart) (until : ℤ) (limit : ℕ) (wanted : Asked)
        → RunComesTo i choices.now part until limit wanted choice.old followed → IfSome result (ComesOut i choices.now part until limit wanted) }
    ensures passed { (i : Sections) (part : SetPart) (until : ℤ) (limit : ℕ) (wanted : Asked)
        → RunComesTo i choices.now part until limit wanted choice.old followed → result ≡ None
        → MayGoOn i choices.now part until limit wanted choice.old choice.new }
{
    left_unmoved();
    outcome_stays();
    lines_apart();
    lines_unread();
    let _slots = choices.slots();
    match followed {
        Followed::Found(finding) => Some(Searched::Found(schedule, finding)),
        Followed::TooLong(time) => Some(Searched::TooLong(schedule, time)),
        Followed::Nothing => None,
        Followed::Met(front) => {
            choice.go_to_last(choices, front);
            None
        }
        Followed::Over(front) => {
            choice.go_to_last(choices, front);
            None
        }
    }
}
