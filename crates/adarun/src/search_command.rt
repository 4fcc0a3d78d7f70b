//! What `search` does over files and streams.
ghost use Rattle.std.specs.Prelude.{◌≡◌, nat_eq, if◌then◌else◌};
ghost use Rattle.base.specs.declared.faults.TheConstants.{MEMORY_REFUSED};
ghost use Rattle.command_line.specs.Words as words_of;
ghost use Rattle.adarun.specs.Driving as driving;
ghost use Rattle.adarun.specs.Driving.{KeepsSink, LeavesSearch, looks_for};
ghost use Rattle.adarun.specs.Reading.{with_input};

use crate::exploring::{SearchFault, SearchOutcome, search};
use crate::files::{FileStore, read_source};
use crate::messages::{cannot_write, no_memory, refuse, refuse_source, unread};
use crate::program::Status;
use crate::progress::{Reporter, Stopwatch};
use choices::{ChoicesFault, Part};
use command_line::Sought;
use file_limits::CHOICES_BYTES;
use machine::{RunFault, Sink, Steps};
use searching::Wanted;
use std::alloc::Global;
use std::sync::ledger::Ledger;

// What the words look for, as the search is given it.
fn wanted_of(sought: Sought<'_>) -> Wanted<'_>
    ensures { looks_for result ≡ words_of.wanted_of sought.entry }
{
    match sought {
        Sought::UnhandledOrWaits => Wanted::UnhandledOrWaits,
        Sought::Unhandled => Wanted::Unhandled,
        Sought::WaitsForever => Wanted::WaitsForever,
        Sought::Line(label) => Wanted::Line(label.as_bytes()),
    }
}

fn status_of(outcome: SearchOutcome) -> Status
    ensures is { result ≡ driving.search_status outcome }
    ensures source { result ≡ Status.SourceRefused → ⊥ }
    ensures schedule { result ≡ Status.ScheduleRefused → ⊥ }
    ensures memory { result ≡ Status.NoMemory → ⊥ }
    ensures failed { result ≡ Status.Failed → ⊥ }
{
    match outcome {
        SearchOutcome::Unhandled => Status::Unhandled,
        SearchOutcome::WaitsForever => Status::WaitsForever,
        SearchOutcome::Line => Status::LineFound,
        SearchOutcome::TooLong => Status::StepLimit,
        SearchOutcome::Nothing => Status::Done,
    }
}

/// Reports why a set of schedules was refused.
pub(crate) fn refuse_choices<E: Sink>(err: &mut E, fault: &ChoicesFault) -> Status
    ensures { result ≡ (if nat_eq fault.now.number MEMORY_REFUSED then Status.NoMemory else Status.ScheduleRefused) }
{
    refuse(
        err,
        Status::ScheduleRefused,
        "choices",
        fault.number,
        "line",
        fault.line,
    )
}

/// Searches the schedules of a part of a set for one under which the source comes to what is sought, up to `until` (microseconds since the start), with
/// `limit` steps at one time at most. Unless it is quiet it reports meanwhile how far it is, each second, where standard error is a terminal.
#[inline(never)]
pub(crate) fn drive_search<F: FileStore, W: Stopwatch, O: Sink, E: Sink, L: Ledger>(
    alloc: Global,
    files: &F,
    source: &str,
    choices: &str,
    until: i64,
    limit: u64,
    sought: Sought<'_>,
    part: Part,
    is_quiet: bool,
    watch: &W,
    out: &mut O,
    err: &mut E,
    steps: &mut Steps<L>,
) -> Status
    ensures leaves { LeavesSearch (with_input (F.standard_input files.now) (F.contents files.now)) source.now (F.contents files.now choices.now) until limit
        (words_of.wanted_of sought.entry) part result (O.bytes out.old) (O.bytes out.new) }
    ensures sink { KeepsSink result (out.new ≡ out.old) (O.failures out.old) (O.failures out.new) }
{
    let text = match read_source(alloc, files, source) {
        Ok(text) => text,
        Err(error) => return unread(err, error, source),
    };
    let lines = match files.read(alloc, choices, CHOICES_BYTES) {
        Ok(lines) => lines,
        Err(error) => return unread(err, error, choices),
    };
    let mut reporter = Reporter::new(err, watch, is_quiet);
    match search(
        alloc,
        &text,
        &lines,
        part,
        until,
        limit,
        wanted_of(sought),
        &mut reporter,
        out,
        steps,
    ) {
        Ok(outcome) => status_of(outcome),
        Err(SearchFault::Source(fault)) => refuse_source(err, &text, &fault),
        Err(SearchFault::Choices(fault)) => refuse_choices(err, &fault),
        Err(SearchFault::Run(RunFault::Memory)) => no_memory(err),
        Err(SearchFault::Run(RunFault::Write)) => cannot_write(err),
    }
}
